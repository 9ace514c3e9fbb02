//! Searches whose writes fail.

use super::*;
use pg_trial::{FailsAt, OneByte};
use std::io::{ErrorKind, Write};

// A search finds `wanted` games, or answers so, and makes `writes` writes to `inner`, the last of which is refused
// where its number, from 0, is `at`; what it wrote to.
fn written<R: Abort + AllocGlobal, W: Write + Drop>(
    rt: &R,
    goal: &Goal,
    inner: W,
    at: u64,
    writes: u64,
    wanted: &str,
) -> W {
    let mut sink = ToWrite::new(FailsAt::new(inner, at, ErrorKind::Other));
    let said = count_of(&searched(rt.alloc(), goal, NODES, &mut sink));
    assert_eq!(rt; said.as_str(), wanted, "{at}");
    let writer = sink.into_inner();
    assert_eq!(rt; writer.calls(), writes, "{at}");
    writer.into_inner()
}

// The certificate's bytes are written one a call.
#[test]
fn pieces_of_one_byte(rt: HostRuntime) {
    let goal = goal_of(&rt, "four-knights-gone", "4.0");
    let bytes = certificate(&rt, &goal);
    let pieces = OneByte::new(Vec::new(rt.alloc()));
    let pieces = written(&rt, &goal, pieces, NODES, bytes.len() as u64, "1");
    assert!(rt; pieces.into_inner().as_slice() == bytes.as_slice());
}

// Each byte of the certificate is refused in turn, and nothing is written after it.
#[test]
fn refused_writes(rt: HostRuntime) {
    let goal = goal_of(&rt, "after-e4-e5", "1.0");
    for at in 0..59u64 {
        let pieces = OneByte::new(Vec::new(rt.alloc()));
        let _ = written(&rt, &goal, pieces, at, at.saturating_add(1), "Write");
    }
    let pieces = OneByte::new(Vec::new(rt.alloc()));
    let pieces = written(&rt, &goal, pieces, 59, 59, "1");
    let bytes = certificate(&rt, &goal);
    assert!(rt; pieces.into_inner().as_slice() == bytes.as_slice());
}

// The certificate of some problem comes in pieces of 4,096 bytes; each is refused in turn.
#[test]
fn refused_pieces(rt: HostRuntime) {
    let goal = goal_of(&rt, "four-knights-gone", "4.0");
    for at in 0..3u64 {
        let pieces = Vec::new(rt.alloc());
        let _ = written(&rt, &goal, pieces, at, at.saturating_add(1), "Write");
    }
    let bytes = certificate(&rt, &goal);
    let pieces = Vec::new(rt.alloc());
    let pieces = written(&rt, &goal, pieces, 3, 3, "1");
    assert!(rt; pieces.as_slice() == bytes.as_slice());
}
