//! Certificates of version 1 that are upgraded or refused.

use super::runs::RUNS;
use super::*;
use pg_trial::Endless;
use std::io::{Read, Write};

// As many records are allowed as the certificate has.
const UPGRADED: &str = "upgrade |  |  |  | 0 | 1 array 0 |  | 37 => 0
upgrade |  |  |  | 22 | 1 after-e4-e5 1.0 | 0204 01 0204*13 01 0204*6 | 79 => 22
upgrade |  |  |  | 9766 | 1 recaptured 2 | 01*9766 | 9803 => 9766
upgrade |  |  |  | 4 | 1 array 0 | 01 05 02ff 0301020304 | 46 => 4";

// The bytes of version 1 become those of version 2, which are not upgraded themselves.
fn check_upgrade<R: Abort + AllocGlobal>(rt: &R, row: &str) {
    let [asked, answer, _] = parts(rt, row);
    let bytes = bytes_of(rt, asked);
    let mut newer = bytes_of(rt, asked);
    if let Some(version) = newer.get_mut(3) {
        *version = b'2';
    }
    check_both(rt, asked, bytes.as_slice(), answer, newer.as_slice());
    check_refused(
        rt,
        asked,
        newer.as_slice(),
        "NotVersion1: not a certificate of version 1",
    );
}

// The bytes are refused so.
fn check_refused<R: Abort + AllocGlobal>(rt: &R, asked: &str, bytes: &[u8], answer: &str) {
    let _ = written(rt, asked, bytes, MANY, answer);
}

#[test]
fn certificates_of_version_one(rt: HostRuntime) {
    for row in UPGRADED.lines() {
        check_upgrade(&rt, row);
    }
}

// A check says the same of the bytes of a row and of their upgrade, and both reports are the same.
fn check_right<R: Abort + AllocGlobal>(rt: &R, row: &str, records: &str) {
    let row = lines_of(rt, row);
    let [asked, answer, text] = parts(rt, row.as_str());
    let bytes = bytes_of(rt, asked);
    let newer = written(rt, "upgrade", bytes.as_slice(), MANY, records).into_inner();
    check_quickly(rt, asked, bytes.as_slice(), answer, text.as_bytes());
    check_quickly(rt, asked, newer.as_slice(), answer, text.as_bytes());
}

// The open game and the two orders.
#[test]
fn upgraded_certificates_are_right(rt: HostRuntime) {
    let mut rows = RUNS.lines().skip(2);
    check_right(&rt, rows.next().expect(&rt, RUNS), "22");
    check_right(&rt, rows.next().expect(&rt, RUNS), "63");
}

// What is no header: too few bytes, other bytes, and another version. What is no record, or half of one. A limit
// of records is reached where one more byte is there, whatever it is.
const REFUSED: &str = "upgrade |  |  |  |  |  |  => Truncated: truncated certificate
upgrade |  |  |  |  |  | 58*36 => Truncated: truncated certificate
upgrade |  |  |  |  |  | 58*37 => NotVersion1: not a certificate of version 1
upgrade |  |  |  | 0 |  | 50474331 00 24533642 11*4 00*16 99*4 acdbbe | 36 => Truncated: truncated certificate
upgrade |  |  |  |  | 0 array 0 |  => NotVersion1: not a certificate of version 1
upgrade |  |  |  |  | 3 array 0 |  => NotVersion1: not a certificate of version 1
upgrade |  |  |  |  | 1 array 0 | 06 => UnknownRecord(6): unknown record byte 6
upgrade |  |  |  |  | 1 array 0 | 02 => Truncated: truncated certificate
upgrade |  |  |  |  | 1 array 0 | 03 00*2 => Truncated: truncated certificate
upgrade |  |  |  |  | 1 array 0 | 02060001 => UnknownRecord(0): unknown record byte 0
upgrade |  |  |  | 21 | 1 after-e4-e5 1.0 | 0204 01 0204*13 01 0204*6 => Budget: record limit reached
upgrade |  |  |  | 0 | 1 after-e4-e5 1.0 | 0204 01 0204*13 01 0204*6 => Budget: record limit reached
upgrade |  |  |  | 1 | 1 array 0 | 0109 => Budget: record limit reached";

// The certificate of a row is refused so.
fn check_row_refused<R: Abort + AllocGlobal>(rt: &R, row: &str) {
    let [asked, answer, _] = parts(rt, row);
    let bytes = bytes_of(rt, asked);
    check_refused(rt, asked, bytes.as_slice(), answer);
}

#[test]
fn certificates_that_are_not_upgraded(rt: HostRuntime) {
    for row in REFUSED.lines() {
        check_row_refused(&rt, row);
    }
}

// Records without an end are refused at the limit.
#[test]
fn too_many_records(rt: HostRuntime) {
    let header = certificate(&rt, "1 after-e4 0.5", "");
    let mut source = FromRead::new(header.as_slice().chain(Endless::new(1)));
    let mut out = ToWrite::new(Vec::new(rt.alloc()));
    let said = obey(&rt, "upgrade |  |  |  | 1000", &mut source, &mut out);
    assert_eq!(rt; said.as_str(), "Budget: record limit reached");
}

const OPEN_GAME: &str = "upgrade |  |  |  |  | 1 after-e4-e5 1.0 | 0204 01 0204*13 01 0204*6";

// Each read of one byte fails in turn, and is not tried again.
#[test]
fn reads_of_an_upgrade_that_fail(rt: HostRuntime) {
    let bytes = bytes_of(&rt, OPEN_GAME);
    for at in 0..80u64 {
        let _ = read_until(&rt, OPEN_GAME, bytes.as_slice(), at, "Read: read fault");
    }
}

// The write with this number fails, and is not tried again.
fn check_failed<R: Abort + AllocGlobal, W: Write + Drop>(rt: &R, bytes: &[u8], inner: W, at: u64) {
    let mut out = ToWrite::new(FailsAt::new(inner, at, ErrorKind::Interrupted));
    let said = obey(rt, "upgrade", &mut FromRead::new(bytes), &mut out);
    assert_eq!(rt; said.as_str(), "Write: write fault", "{at}");
    assert_eq!(rt; out.into_inner().calls(), at.saturating_add(1));
}

// Each write of one byte fails in turn, and is not tried again; so does each of three buffers.
#[test]
fn writes_of_an_upgrade_that_fail(rt: HostRuntime) {
    let bytes = bytes_of(&rt, OPEN_GAME);
    for at in 0..79u64 {
        let inner = OneByte::new(Vec::new(rt.alloc()));
        check_failed(&rt, bytes.as_slice(), inner, at);
    }
    let long = certificate(&rt, "1 recaptured 2", "01*9766");
    for at in 0..3u64 {
        check_failed(&rt, long.as_slice(), Vec::new(rt.alloc()), at);
    }
}
