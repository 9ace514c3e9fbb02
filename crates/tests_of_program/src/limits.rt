//! A writer that takes no more bytes than a limit.

use pg_certificate::{Sink, ToWrite};
use pg_streams::Limited;
use pg_trial::{FailsAt, OneByte};
use std::io::{ErrorKind, Write};
use std::process::Abort;

// A write is refused for its length, and so is each behind it.
fn check_full<W: Write>(rt: &impl Abort, out: &mut Limited<W>, bytes: &[u8]) {
    for piece in [bytes, b"", b"a"] {
        let refused = match out.write(piece) {
            Ok(_) => false,
            Err(fault) => fault.kind() == ErrorKind::FileTooLarge,
        };
        assert!(rt; refused && out.is_full());
    }
}

// The last byte that fits is taken, and of a longer write nothing.
#[test]
fn writes_up_to_a_limit(rt: HostRuntime) {
    let mut out = Limited::new(Vec::new(rt.alloc()), 7);
    assert!(rt; matches!(out.write(b"1. e4"), Ok(5)));
    assert!(rt; matches!(out.write(b" e"), Ok(2)) && !out.is_full());
    assert!(rt; matches!(out.write(b""), Ok(0)) && !out.is_full());
    check_full(&rt, &mut out, b"5");
    assert!(rt; out.into_inner().as_slice() == b"1. e4 e".as_slice());
}

// A write that is too long by itself leaves nothing behind; nor does the first byte, where none may be written.
#[test]
fn writes_past_a_limit(rt: HostRuntime) {
    let mut out = Limited::new(Vec::new(rt.alloc()), 7);
    check_full(&rt, &mut out, b"1. e4 e5");
    assert!(rt; out.into_inner().is_empty());
    let mut out = ToWrite::new(Limited::new(Vec::new(rt.alloc()), 0));
    assert!(rt; out.push(b"").is_ok() && !out.failed());
    assert!(rt; out.push(b"a").is_err() && out.failed());
    assert!(rt; out.into_inner().is_full());
}

// What the writer below does not take is not counted, and a fault of its own is no full limit.
#[test]
fn short_writes_below_a_limit(rt: HostRuntime) {
    let mut out = Limited::new(OneByte::new(Vec::new(rt.alloc())), 3);
    for rest in [b"abc".as_slice(), b"bc", b"c"] {
        assert!(rt; matches!(out.write(rest), Ok(1)));
    }
    check_full(&rt, &mut out, b"a");
    let failing = FailsAt::new(Vec::new(rt.alloc()), 0, ErrorKind::StorageFull);
    let mut out = Limited::new(failing, 3);
    assert!(rt; out.write(b"abc").is_err() && !out.is_full());
    assert!(rt; matches!(out.write(b"abc"), Ok(3)));
    check_full(&rt, &mut out, b"a");
}
