//! Where there is no page.

use super::*;
use pg_trial::FailsAt;
use std::io::ErrorKind;

// Of certificates that are refused nothing is written; the last header names no problem.
const REFUSED: &str =
    "after-e4 | 0.5 | 9 | 2 after-e4 0.5 |  => Answer(Check(Truncated)): truncated certificate
after-e4 | 0.5 | 9 | 2 after-e4 0.5 | 0101 => Answer(Check(Trailing)): bytes after the certificate
after-e4 | 0.5 | 9 | 2 after-e4 0.5 | 0204 => Answer(Check(CutFails(4))): cut 4 does not exclude
after-e4 | 0.5 | 9 | 2 after-e4 0.5 | 0300000000 => Answer(Check(RefUnknown)): reference to no closed node
after-e4 | 1.0 | 9 | 2 after-e4 1.0 | 01*22 => Answer(Check(Shorter(1))): a game of 1 plies reaches the diagram
array | 64.0 | 9 |  | 50474331 81 24533642 11111111 00*16 99999999 acdbbeca => NoProblem: certificate for no problem";

// This is answered, and nothing is written.
fn check_refused<R: Abort + AllocGlobal>(rt: &R, row: &str) {
    let (asked, answer) = halves(rt, row, " => ");
    let page = page_of(rt, asked, bytes_of(rt, asked).as_slice(), answer);
    assert!(rt; page.is_empty(), "{row}");
}

#[test]
fn refused_certificates_make_no_page(rt: HostRuntime) {
    for row in REFUSED.lines() {
        check_refused(&rt, row);
    }
}

const SHOWN: &str = "after-e4 | 0.5 | 9 | 2 after-e4 0.5 | 01";

// This is answered where one write fails, and it is the last one.
fn check_write<R: Abort + AllocGlobal>(rt: &R, bytes: &[u8], at: u64) {
    let mut out = ToWrite::new(FailsAt::new(Vec::new(rt.alloc()), at, ErrorKind::Other));
    let said = show_bytes(rt, SHOWN, bytes, &mut out);
    assert_eq!(rt; said.as_str(), "Write: write fault", "{at}");
    assert_eq!(rt; out.into_inner().calls(), at.saturating_add(1), "{at}");
}

// How many writes a page takes.
fn writes<R: Abort + AllocGlobal>(rt: &R, bytes: &[u8]) -> u64 {
    let mut out = ToWrite::new(FailsAt::new(Vec::new(rt.alloc()), MANY, ErrorKind::Other));
    let said = show_bytes(rt, SHOWN, bytes, &mut out);
    assert_eq!(rt; said.as_str(), "()");
    out.into_inner().calls()
}

#[test]
fn writes_that_fail(rt: HostRuntime) {
    let bytes = bytes_of(&rt, SHOWN);
    let writes = writes(&rt, bytes.as_slice());
    assert!(rt; writes > 100);
    for at in 0..writes {
        check_write(&rt, bytes.as_slice(), at);
    }
}

// Where the reading fails nothing is written.
#[test]
fn readings_that_fail(rt: HostRuntime) {
    let bytes = bytes_of(&rt, SHOWN);
    let mut source = FromRead::new(FailsAt::new(bytes.as_slice(), 0, ErrorKind::Other));
    let mut out = ToWrite::new(Vec::new(rt.alloc()));
    let said = show(&rt, SHOWN, &mut source, &mut out);
    assert_eq!(rt; said.as_str(), "Answer(Check(Read)): read fault");
    assert!(rt; out.into_inner().is_empty());
}
