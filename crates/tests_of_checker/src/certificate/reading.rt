//! Headers and records that are read or refused, and reads that fail.

use super::*;
use pg_price_lists::Prices;
use pg_trial::{Endless, FailsAt, OneByte};
use std::io::{ErrorKind, Read};

// What a record says, with its prices for the sources and the targets of each way.
fn record_words<R: Abort + AllocGlobal>(rt: &R, record: &Record) -> String {
    let Record::Priced {
        code,
        color,
        prices,
    } = record
    else {
        return words(rt, &format_args!("{record:?}"));
    };
    let mut said = words(rt, &format_args!("Priced {code} {color:?}"));
    for way in 0..prices.ways() {
        let (u, v) = (prices.u(way), prices.v(way));
        write!(said, " {u:?} {v:?}").expect(rt, "memory");
    }
    said
}

// The version and the plies of a header, or all of it with its diagram.
fn header_words<R: Abort + AllocGlobal>(rt: &R, header: &Header, name: &str) -> String {
    if name == "diagram" {
        return words(rt, &format_args!("{header:?}"));
    }
    words(rt, &format_args!("{} {}", header.version, header.plies))
}

// What a call answers: `header`, `diagram` (a header with all it has), `record`, `bare` (a record apart from its
// prices, and then the first way's prices for the sources and the last way's for the targets), `more` or `end`. An
// exclamation mark stands before a refusal.
fn call<R: Abort + AllocGlobal, S: Source>(
    rt: &R,
    reader: &mut RecordReader,
    prices: &mut Prices,
    source: &mut S,
    name: &str,
) -> String {
    match name {
        "header" | "diagram" => match reader.header(source) {
            Ok(header) => header_words(rt, &header, name),
            Err(fault) => fault_words(rt, fault),
        },
        "record" => match reader.next_record(source) {
            Ok(record) => record_words(rt, &record),
            Err(fault) => fault_words(rt, fault),
        },
        "bare" => {
            let read = reader.next_bare(prices, source);
            bare_words(rt, read, prices)
        }
        "more" => match reader.more(source) {
            Ok(more) => words(rt, &more),
            Err(fault) => fault_words(rt, fault),
        },
        _ => match reader.end(source) {
            Ok(()) => words(rt, &"end"),
            Err(fault) => fault_words(rt, fault),
        },
    }
}

// The name of a fault.
fn fault_words<R: Abort + AllocGlobal>(rt: &R, fault: ReadFault) -> String {
    words(rt, &format_args!("!{fault:?}"))
}

// What was read apart from its prices, and those.
fn bare_words<R: Abort + AllocGlobal>(
    rt: &R,
    read: Result<Bare, ReadFault>,
    prices: &Prices,
) -> String {
    let (u, v) = (prices.u(0), prices.v(prices.ways().saturating_sub(1)));
    match read {
        Ok(bare) => words(rt, &format_args!("{bare:?} {u:?} {v:?}")),
        Err(fault) => words(rt, &format_args!("!{fault:?} {u:?} {v:?}")),
    }
}

// The calls after a refusal, each of which is refused.
const AFTER: &str = "bare header record more end bare header record more end";

// What the calls of a reader of records answer, in turn, up to a refusal; after that each call answers `Failed`.
// Behind a star stands how often a call is made.
pub(super) fn answers<R: Abort + AllocGlobal, S: Source>(
    rt: &R,
    calls: &str,
    source: &mut S,
) -> String {
    let mut reader = RecordReader::new();
    let mut prices = Prices::new(&[7], &[8, 9]).expect(rt, "few enough");
    let mut said = String::new(rt.alloc());
    let mut refused = false;
    for word in calls.split_whitespace() {
        let (name, times) = word.split_once('*').unwrap_or((word, "1"));
        for _ in 0..times.parse::<u32>().expect(rt, word) {
            if !refused {
                let answer = call(rt, &mut reader, &mut prices, source, name);
                refused = answer.as_str().starts_with('!');
                write!(said, "{answer};").expect(rt, "memory");
            }
        }
    }
    if refused {
        for name in AFTER.split_whitespace() {
            let answer = call(rt, &mut reader, &mut prices, source, name);
            assert!(rt; answer.as_str().starts_with("!Failed"), "{answer}");
        }
    }
    said
}

// The calls are answered so, through readers of many bytes and of one. A bar may end the calls.
fn check_calls<R: Abort + AllocGlobal>(rt: &R, asked: &str, bytes: &[u8], wanted: &str) {
    let (calls, _) = asked.split_once(" | ").unwrap_or((asked, ""));
    let many = answers(rt, calls, &mut FromRead::new(bytes));
    assert_eq!(rt; many.as_str(), wanted, "{asked}");
    let slowly = answers(rt, calls, &mut FromRead::new(OneByte::new(bytes)));
    assert_eq!(rt; slowly.as_str(), wanted, "{asked}");
}

// A row of calls, the version of a header of the array, if there is one, and the bytes behind it: what is answered.
fn check_row<R: Abort + AllocGlobal>(rt: &R, row: &str) {
    let (asked, wanted) = halves(rt, row, " => ");
    let (_, rest) = halves(rt, asked, " | ");
    let (version, records) = halves(rt, rest, " | ");
    check_calls(rt, asked, spelled(rt, version, records).as_slice(), wanted);
}

fn check_table<R: Abort + AllocGlobal>(rt: &R, table: &str) {
    for row in table.lines() {
        check_row(rt, row);
    }
}

// Each record of version 1 once, whole and apart from its prices; and all bytes but the last ones of a record.
const EACH: &str =
    "record*4 end |  | 01 05 0204 0300010203 => Expand { named: false };Expand { named: true };Cut(4);Ref(66051);end;
record*4 |  |  => !Truncated;
record*4 |  | 01 05 02 => Expand { named: false };Expand { named: true };!Truncated;
record*4 |  | 01 05 0204 03 => Expand { named: false };Expand { named: true };Cut(4);!Truncated;
record*4 |  | 01 05 0204 0300 => Expand { named: false };Expand { named: true };Cut(4);!Truncated;
record*4 |  | 01 05 0204 030001 => Expand { named: false };Expand { named: true };Cut(4);!Truncated;
record*4 |  | 01 05 0204 03000102 => Expand { named: false };Expand { named: true };Cut(4);!Truncated;
bare*4 end |  | 01 05 0204 0300010203 => \
    Expand { named: false } [7] [8, 9];Expand { named: true } [7] [8, 9];Cut(4) [7] [8, 9];Ref(66051) [7] [8, 9];end;
bare*2 |  | 0004000101010203 => !UnknownRecord(0) [7] [8, 9];
bare*2 |  | 0404000101010203 => !UnknownRecord(4) [7] [8, 9];
bare*2 |  | 0604000101010203 => !UnknownRecord(6) [7] [8, 9];
bare*2 |  | ff04000101010203 => !UnknownRecord(255) [7] [8, 9];
bare |  | 02 => !Truncated [7] [8, 9];
bare |  | 03 => !Truncated [7] [8, 9];";

#[test]
fn each_record_is_read(rt: HostRuntime) {
    check_table(&rt, EACH);
}

// White's prices by travel from a1, e1, h1 to e1, a2, a3; those by pawn files from a2 to h2 to a2, b2, c2, d2, f2, g2,
// h2, d3; Black's prices in three ways, for two sources and one target. A list may have no number, of sources or
// of both. Bytes that are out of range are unknown, also where nothing comes behind them, but for the code of a
// bound. Version 1 has no prices, and a reader of no header none either. Prices apart from their record.
const PRICED: &str =
    "header record | 2 | 060400010303 010000 000202 => 2 0;Priced 4 White [1, 0, 0] [0, 2, 2];
header record | 2 | 060300010808 00*3 01 00*7 01 00*3 01 => 2 0;Priced 3 White [0, 0, 0, 1, 0, 0, 0, 0] [0, 0, 0, 1, 0, 0, 0, 1];
header record | 2 | 060401030201 010203 040506 0708ff => 2 0;Priced 4 Black [1, 2] [3] [4, 5] [6] [7, 8] [255];
header record | 2 | 01 06 => 2 0;Expand { named: false };
header record | 2 | 060900010000 => 2 0;Priced 9 White [] [];
header record | 2 | 0609000100 => 2 0;!Truncated;
header record | 2 | 060000010001 07 => 2 0;Priced 0 White [] [7];
header record | 2 | 060402010303 010000 000202 => 2 0;!UnknownRecord(2);
header record | 2 | 060402 => 2 0;!UnknownRecord(2);
header record | 2 | 0604ff010303 010000 000202 => 2 0;!UnknownRecord(255);
header record | 2 | 0604ff => 2 0;!UnknownRecord(255);
header record | 2 | 060400000303 010000 000202 => 2 0;!UnknownRecord(0);
header record | 2 | 06040000 => 2 0;!UnknownRecord(0);
header record | 2 | 060400040303 010000 000202 => 2 0;!UnknownRecord(4);
header record | 2 | 06040004 => 2 0;!UnknownRecord(4);
header record | 2 | 060400014103 010000 000202 => 2 0;!UnknownRecord(65);
header record | 2 | 0604000141 => 2 0;!UnknownRecord(65);
header record | 2 | 06040001ff03 010000 000202 => 2 0;!UnknownRecord(255);
header record | 2 | 06040001ff => 2 0;!UnknownRecord(255);
header record | 2 | 060400010341 010000 000202 => 2 0;!UnknownRecord(65);
header record | 2 | 060400010341 => 2 0;!UnknownRecord(65);
header record | 2 | 06c800010303 010000 000202 => 2 0;Priced 200 White [1, 0, 0] [0, 2, 2];
header record | 1 | 060400010303 010000 000202 => 1 0;!UnknownRecord(6);
header record | 1 | 06 => 1 0;!UnknownRecord(6);
record |  | 060300010808 00*3 01 00*7 01 00*3 01 => !UnknownRecord(6);
header bare | 2 | 060400010303 010000 000202 => 2 0;Priced { code: 4, color: White } [1, 0, 0] [0, 2, 2];
header bare | 2 | 060401030201 010203 040506 0708ff => 2 0;Priced { code: 4, color: Black } [1, 2] [255];
header bare | 2 | 060400010303 010000 0002 => 2 0;!Truncated [7] [8, 9];
header bare | 2 | 0400010303 010000 000202 => 2 0;!UnknownRecord(4) [7] [8, 9];";

#[test]
fn priced_records_are_read(rt: HostRuntime) {
    check_table(&rt, PRICED);
}

// A header of another magic is none, which is not told before all of its bytes are there.
const MAGIC: &str = "header |  | 58474331 00 24533642 11*4 00*16 99*4 acdbbe => !Truncated;
header |  | 58474331 00 24533642 11*4 00*16 99*4 acdbbeca => !Magic;
header |  | 50584331 00 24533642 11*4 00*16 99*4 acdbbe => !Truncated;
header |  | 50584331 00 24533642 11*4 00*16 99*4 acdbbeca => !Magic;
header |  | 50475831 00 24533642 11*4 00*16 99*4 acdbbe => !Truncated;
header |  | 50475831 00 24533642 11*4 00*16 99*4 acdbbeca => !Magic;
header |  | 50474330 00 24533642 11*4 00*16 99*4 acdbbe => !Truncated;
header |  | 50474330 00 24533642 11*4 00*16 99*4 acdbbeca => !Magic;
header |  | 50474333 00 24533642 11*4 00*16 99*4 acdbbe => !Truncated;
header |  | 50474333 00 24533642 11*4 00*16 99*4 acdbbeca => !Magic;";

#[test]
fn the_magic_is_tested_after_the_length(rt: HostRuntime) {
    check_table(&rt, MAGIC);
}

// Three lists of White's, of as many numbers as may be.
#[test]
fn the_widest_record_is_read(rt: HostRuntime) {
    let bytes = spelled(&rt, "2", "060400034040 01*384");
    let ones = [1u8; 64];
    let way = words(&rt, &format_args!("{ones:?} {ones:?}"));
    let wanted = words(&rt, &format_args!("2 0;Priced 4 White {way} {way} {way};"));
    check_calls(&rt, "header record", bytes.as_slice(), wanted.as_str());
    let front = &bytes[..bytes.len().saturating_sub(1)];
    check_calls(&rt, "header record", front, "2 0;!Truncated;");
}

// Prices by pawn files, of 22 bytes.
const PAWNS: &str = "060300010808 00*3 01 00*7 01 00*3 01";

#[test]
fn a_record_may_be_cut_anywhere(rt: HostRuntime) {
    let bytes = spelled(&rt, "2", PAWNS);
    assert_eq!(rt; bytes.len(), 59);
    for length in 37..59 {
        check_calls(&rt, "header record", &bytes[..length], "2 0;!Truncated;");
    }
}

// The array's header, 4,057 expansions, and a reference that the buffer cuts.
#[test]
fn a_number_may_be_cut_by_the_buffer(rt: HostRuntime) {
    let bytes = spelled(&rt, "1", "01*4057 0300010203");
    let expanded = "Expand { named: false };".repeat(rt.alloc(), 4_057);
    let expanded = expanded.expect(&rt, "memory");
    let wanted = words(
        &rt,
        &format_args!("1 0;{expanded}true;Ref(66051);false;end;"),
    );
    let calls = "header record*4057 more record more end";
    check_calls(&rt, calls, bytes.as_slice(), wanted.as_str());
}

// A certificate for `1. e4 e5`, in 2 plies, with 22 records.
const OPEN_GAME: &str =
    "50474331 02 24533642 11111011 00*6 01 00*3 09 00*5 999990 99 acdbbeca 0204 01 0204*13 01 0204*6";

// All its records, and the end.
const WHOLE: &str = "header record*22 end";

// The last call is answered so, by the bytes.
fn check_last<R: Abort + AllocGlobal>(rt: &R, bytes: &[u8], wanted: &str) {
    let mut source = FromRead::new(bytes);
    let said = answers(rt, WHOLE, &mut source);
    assert!(rt; said.as_str().ends_with(wanted), "{said}");
    assert!(rt; !source.failed());
}

#[test]
fn every_proper_prefix_is_truncated(rt: HostRuntime) {
    let mut bytes = spelled(&rt, "", OPEN_GAME);
    assert_eq!(rt; bytes.len(), 79);
    for length in 0..79 {
        check_last(&rt, &bytes[..length], "!Truncated;");
    }
    check_last(&rt, bytes.as_slice(), ";end;");
    append(&rt, &mut bytes, "01");
    check_last(&rt, bytes.as_slice(), ";!Trailing;");
}

// Other bytes than 1, 2, 3 and 5 begin no record.
fn check_byte<R: Abort + AllocGlobal>(rt: &R, byte: u8) {
    let said = answers(
        rt,
        "record",
        &mut FromRead::new([byte, 1, 1, 1, 1].as_slice()),
    );
    if matches!(byte, 1 | 2 | 3 | 5) {
        assert!(rt; !said.as_str().contains('!'), "at {byte}");
    } else {
        let wanted = words(rt, &format_args!("!UnknownRecord({byte});"));
        assert_eq!(rt; said.as_str(), wanted.as_str());
    }
}

#[test]
fn other_bytes_are_unknown(rt: HostRuntime) {
    for byte in 0..=255u8 {
        check_byte(&rt, byte);
    }
}

// The read with this number fails, and no read comes after it.
fn fails_once<R: Abort + AllocGlobal>(rt: &R, calls: &str, bytes: &[u8], at: u64, kind: ErrorKind) {
    let mut source = FromRead::new(FailsAt::new(OneByte::new(bytes), at, kind));
    let said = answers(rt, calls, &mut source);
    assert!(rt; said.as_str().ends_with("!Read;"), "{said}");
    assert!(rt; source.failed());
    assert!(rt; source.pull(&mut [0; 9]).is_err());
    assert_eq!(rt; source.into_inner().calls(), at.saturating_add(1));
}

#[test]
fn a_failed_read_is_not_tried_again(rt: HostRuntime) {
    let bytes = spelled(&rt, "", OPEN_GAME);
    for at in 0..80 {
        fails_once(&rt, WHOLE, bytes.as_slice(), at, ErrorKind::Interrupted);
        fails_once(&rt, WHOLE, bytes.as_slice(), at, ErrorKind::Other);
    }
    let bytes = spelled(&rt, "2", PAWNS);
    for at in 37..59 {
        fails_once(&rt, "header record", bytes.as_slice(), at, ErrorKind::Other);
    }
}

// A header and then one byte for ever: 10,000 records are read, or the first is refused.
fn check_endless<R: Abort + AllocGlobal>(rt: &R, version: &str, byte: u8, wanted: &str) {
    let header = spelled(rt, version, "");
    let mut source = FromRead::new(header.as_slice().chain(Endless::new(byte)));
    let said = answers(rt, "header record*10000 end", &mut source);
    assert!(rt; said.as_str().ends_with(wanted), "{wanted}");
}

#[test]
fn an_endless_reader_is_read_on(rt: HostRuntime) {
    check_endless(&rt, "1", 1, "Expand { named: false };!Trailing;");
    check_endless(&rt, "2", 6, "2 0;!UnknownRecord(6);");
}

#[test]
fn what_was_not_pulled_is_handed_back(rt: HostRuntime) {
    let bytes = [1, 5, 2, 4, 3, 0, 1, 2, 3];
    let mut source = FromRead::new(bytes.as_slice());
    assert!(rt; matches!(source.pull(&mut [0; 4]), Ok(4)));
    assert!(rt; source.into_inner() == &bytes[4..]);
}
