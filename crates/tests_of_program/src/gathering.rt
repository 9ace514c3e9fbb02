//! Bytes that are gathered before they are written.

use crate::shared::repeated;
use pg_certificate::{Sink, ToWrite};
use pg_streams::Gathered;
use pg_trial::{FailsAt, OneByte};
use std::io;
use std::io::Write;
use std::process::Abort;

// Ten thousand bytes in pieces of seven, and whether none was refused.
fn push_pieces<W: Sink>(out: &mut Gathered<W>) -> bool {
    for _ in 0..1428u16 {
        if out.push(b"1. e4 e").is_err() {
            return false;
        }
    }
    out.push(b"5..\n").is_ok()
}

// What is written in one piece and another, to a writer that fails at one write, or at none.
fn check_pieces<R: Abort + AllocGlobal>(rt: &R, at: u64, bytes: &mut Vec<u8>) {
    let mut writer = FailsAt::new(bytes, at, io::ErrorKind::Interrupted);
    let mut out = Gathered::new(ToWrite::new(&mut writer));
    let pushed = push_pieces(&mut out);
    if !pushed {
        assert!(rt; out.push(b"").is_err());
        assert!(rt; out.push(b"more").is_err());
    }
    assert_eq!(rt; out.finish().is_ok(), at == 3);
    assert_eq!(rt; pushed, at >= 2);
    assert_eq!(rt; writer.calls(), at.saturating_add(1).min(3));
}

// Many short pieces are three writes of up to 4,096 bytes, and any of them may fail.
#[test]
fn short_pieces_are_few_writes(rt: HostRuntime) {
    for at in 0..4u64 {
        let mut bytes = Vec::new(rt.alloc());
        check_pieces(&rt, at, &mut bytes);
        if at == 3 {
            assert_eq!(rt; bytes.len(), 10_000);
            assert!(rt; bytes.as_slice().starts_with(b"1. e4 e1. e4 e"));
            assert!(rt; bytes.as_slice().ends_with(b"1. e4 e5..\n"));
        }
    }
}

// Three pieces, gathered.
fn gathered<R: Abort + AllocGlobal>(rt: &R, pieces: [&[u8]; 3]) -> Vec<u8> {
    let mut out = Gathered::new(ToWrite::new(Vec::new(rt.alloc())));
    for piece in pieces {
        assert!(rt; out.push(piece).is_ok());
    }
    let Ok(sink) = out.finish() else {
        panic!(rt; "a sink");
    };
    sink.into_inner()
}

// A piece that is longer than the room goes through whole, behind what stands before it.
#[test]
fn a_long_piece(rt: HostRuntime) {
    let long = repeated(&rt, b'x', 5000);
    let bytes = gathered(&rt, [b"before", long.as_slice(), b"after"]);
    assert_eq!(rt; bytes.len(), 5011);
    assert!(rt; bytes.as_slice().starts_with(b"beforex"));
    assert!(rt; bytes.as_slice().ends_with(b"xafter"));
}

const REPORT: &[u8] =
    b"diagram rnbqkbnr/pppppppp/8/8/4P3/8/PPPP1PPP/RNBQKBNR\nlength 0.5\ngames 1\n1. e4\nsound\n";

// Whether a report, gathered line by line, is wholly written to a writer.
fn is_written<W: Write + Drop>(out: W) -> bool {
    let mut out = Gathered::new(ToWrite::new(out));
    for line in REPORT.split_inclusive(|byte| *byte == b'\n') {
        if out.push(line).is_err() {
            return false;
        }
    }
    out.finish().is_ok()
}

// One write, which may fail.
fn check_one_write<R: Abort + AllocGlobal>(rt: &R, at: u64, wanted: bool) {
    let mut out = Vec::new(rt.alloc());
    let mut writer = FailsAt::new(&mut out, at, io::ErrorKind::Interrupted);
    assert_eq!(rt; is_written(&mut writer), wanted);
    assert_eq!(rt; writer.calls(), 1);
}

// A byte a write, of which one fails: what stands before it is written.
fn check_slow_write<R: Abort + AllocGlobal>(rt: &R, call: usize) {
    let mut out = Vec::new(rt.alloc());
    let failing = FailsAt::new(&mut out, call as u64, io::ErrorKind::WriteZero);
    assert_eq!(rt; is_written(OneByte::new(failing)), call == REPORT.len());
    let front = REPORT.get(..call).unwrap_or(b"");
    assert!(rt; out.as_slice() == front);
}

// A report is one write; each write that fails is told, and one byte a call gives the same.
#[test]
fn reports_that_are_not_written(rt: HostRuntime) {
    check_one_write(&rt, 0, false);
    check_one_write(&rt, 9, true);
    for call in 0..=REPORT.len() {
        check_slow_write(&rt, call);
    }
}
