//! Headers and records that are written, and writes that fail.

ghost use Rattle.std.specs.Prelude.{◌≡◌};

use super::reading::answers;
use super::*;
use pg_trial::{FailsAt, OneByte, TakesNothing};
use std::fs;
use std::fs::File;
use std::io::ErrorKind;

// Each record of version 1 once.
const RECORDS: [Record; 4] = [
    Record::Expand { named: false },
    Record::Expand { named: true },
    Record::Cut(4),
    Record::Ref(66_051),
];

// The same in words.
const RECORD_WORDS: &str = "Expand { named: false };Expand { named: true };Cut(4);Ref(66051);";

// The header of the array.
fn array_header() -> Header
    ensures { result.version ≡ 1 }
{
    let mut diagram = [0; 32];
    diagram[..8].copy_from_slice(&[0x24, 0x53, 0x36, 0x42, 0x11, 0x11, 0x11, 0x11]);
    diagram[24..].copy_from_slice(&[0x99, 0x99, 0x99, 0x99, 0xac, 0xdb, 0xbe, 0xca]);
    Header {
        version: 1,
        plies: 0,
        diagram,
    }
}

fn has_failed(answer: Result<(), WriteFault>) -> bool {
    matches!(answer, Err(WriteFault::Failed))
}

// Every call answers Failed.
fn stays_failed(rt: &impl Abort, sink: &mut impl Sink, writer: &mut RecordWriter) {
    for _ in 0..2u8 {
        assert!(rt; has_failed(writer.header(&array_header(), sink)));
        assert!(rt; has_failed(writer.put_record(&Record::Cut(4), sink)));
        assert!(rt; has_failed(writer.finish(sink)));
    }
}

// Writes a header, each record `times` times, and the end, up to the first refusal. After that each call answers
// Failed.
fn write_all(rt: &impl Abort, sink: &mut impl Sink, times: u64) -> Result<(), WriteFault> {
    let mut writer = RecordWriter::new();
    let mut answer = writer.header(&array_header(), sink);
    for _ in 0..times {
        for record in &RECORDS {
            if answer.is_ok() {
                answer = writer.put_record(record, sink);
            }
        }
    }
    if answer.is_ok() {
        answer = writer.finish(sink);
    }
    if answer.is_err() {
        stays_failed(rt, sink, &mut writer);
    }
    answer
}

#[test]
fn each_record_is_written(rt: HostRuntime) {
    let mut sink = ToWrite::new(Vec::new(rt.alloc()));
    assert!(rt; write_all(&rt, &mut sink, 1).is_ok());
    let wanted = spelled(&rt, "1", "01 05 0204 0300010203");
    assert_eq!(rt; sink.into_inner().as_slice(), wanted.as_slice());
}

// A header is read, each record `times` times, and the end.
fn check_read<R: Abort + AllocGlobal, S: Source>(rt: &R, source: &mut S, times: usize) {
    let records = RECORD_WORDS.repeat(rt.alloc(), times).expect(rt, "memory");
    let wanted = words(rt, &format_args!("{:?};{records}end;", array_header()));
    let count = times.saturating_mul(4);
    let calls = words(rt, &format_args!("diagram record*{count} end"));
    let said = answers(rt, calls.as_str(), source);
    assert!(rt; said.as_str() == wanted.as_str());
}

#[test]
fn what_was_written_is_read(rt: HostRuntime) {
    let mut sink = ToWrite::new(OneByte::new(Vec::new(rt.alloc())));
    assert!(rt; write_all(&rt, &mut sink, 2_000).is_ok());
    let bytes = sink.into_inner().into_inner();
    assert_eq!(rt; bytes.len(), 37 + 9 * 2_000);
    check_read(&rt, &mut FromRead::new(bytes.as_slice()), 2_000);
}

#[test]
fn a_file_is_written_and_read(rt: HostRuntime) -> Result<(), Fail> {
    let mut sink = ToWrite::new(File::create(&rt, "records.pgc")?);
    assert!(rt; write_all(&rt, &mut sink, 1_000).is_ok());
    let _ = sink.into_inner();
    let mut source = FromRead::new(File::open(&rt, "records.pgc")?);
    check_read(&rt, &mut source, 1_000);
    fs::remove_file(&rt, "records.pgc")?;
    Ok(())
}

fn is_refused(answer: Result<(), WriteFault>) -> bool {
    matches!(answer, Err(WriteFault::Write))
}

// The write of a byte with this number fails, and no write comes after it.
fn fails_once<R: Abort + AllocGlobal>(rt: &R, at: u64, kind: ErrorKind) {
    let pieces = OneByte::new(Vec::new(rt.alloc()));
    let mut sink = ToWrite::new(FailsAt::new(pieces, at, kind));
    assert!(rt; is_refused(write_all(rt, &mut sink, 1)));
    assert!(rt; sink.failed());
    assert!(rt; sink.push(&[1]).is_err());
    assert_eq!(rt; sink.into_inner().calls(), at.saturating_add(1));
}

// The write of a full buffer with this number fails.
fn fails_full<R: Abort + AllocGlobal>(rt: &R, at: u64, kind: ErrorKind) {
    let mut sink = ToWrite::new(FailsAt::new(Vec::new(rt.alloc()), at, kind));
    assert!(rt; is_refused(write_all(rt, &mut sink, 1_000)));
}

#[test]
fn a_failed_write_is_not_tried_again(rt: HostRuntime) {
    for kind in [ErrorKind::Interrupted, ErrorKind::Other] {
        for at in 0..46 {
            fails_once(&rt, at, kind);
        }
        for at in 0..3 {
            fails_full(&rt, at, kind);
        }
    }
}

#[test]
fn a_writer_that_takes_nothing_has_failed(rt: HostRuntime) {
    let mut sink = ToWrite::new(TakesNothing);
    assert!(rt; is_refused(write_all(&rt, &mut sink, 1)));
    assert!(rt; sink.failed());
}
