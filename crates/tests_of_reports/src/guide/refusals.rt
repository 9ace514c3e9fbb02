//! What is said where a text or a certificate is refused.

use super::*;
use pg_trial::{FailsAt, OneByte};
use std::io::ErrorKind;

// Nothing is written.
const TEXTS: &str =
    "after-e4-e5 | 1.0 |  | 1 after-e4-e5 1.0 | 01*22 => Moves: not one line of moves
after-e4-e5 | 1.0 |  $\t | 1 after-e4-e5 1.0 | 01*22 => Moves: not one line of moves
after-e4-e5 | 1.0 | e4$d4 | 1 after-e4-e5 1.0 | 01*22 => Moves: not one line of moves
after-e4-e5 | 1.0 | e4 e5 Ke3 | 1 after-e4-e5 1.0 | 01*22 => \
    Games(At { line: 1, ply: 3, cause: NoSuchMove }): line 1, ply 3: no such legal move
after-e4-e5 | 1.0 | 1. e4, e5 | 1 after-e4-e5 1.0 | 01*22 => \
    Games(At { line: 1, ply: 1, cause: Shape }): line 1, ply 1: not a move";

#[test]
fn texts_that_are_refused(rt: HostRuntime) {
    check_table(&rt, TEXTS);
}

// Bounds that do not exclude the one move, journeys that are not handed in, a bound that nobody knows, and prices.
const CUTS: &str =
    "after-e4 | 0.5 | - | 2 after-e4 0.5 | 0201 => Answer(Check(CutFails(1))): cut 1 does not exclude
after-e4 | 0.5 | - | 2 after-e4 0.5 | 0202 => Answer(Check(CutFails(2))): cut 2 does not exclude
after-e4 | 0.5 | - | 2 after-e4 0.5 | 0203 => Answer(Check(CutFails(3))): cut 3 does not exclude
after-e4 | 0.5 | - | 2 after-e4 0.5 | 0204 => Answer(Check(CutFails(4))): cut 4 does not exclude
after-e4 | 0.5 | - | 2 after-e4 0.5 | 0205 | journeys => Answer(Check(CutFails(5))): cut 5 does not exclude
after-e4 | 0.5 | - | 2 after-e4 0.5 | 0205 => Answer(Check(UnknownBound(5))): unknown bound 5
rnbqkbnr/pppppppp/8/8/8/2N2N2/PPPPPPPP/R1BQKB1R | 0.5 | - | 2 rnbqkbnr/pppppppp/8/8/8/2N2N2/PPPPPPPP/R1BQKB1R 0.5 | \
    0205 => Answer(Check(UnknownBound(5))): unknown bound 5
after-e4 | 0.5 | d4 | 2 after-e4 0.5 | 0209 => Answer(Check(UnknownBound(9))): unknown bound 9
after-e4 | 0.5 | - | 2 after-e4 0.5 | 060400010000 => Answer(Check(CutFails(4))): cut 4 does not exclude";

#[test]
fn cuts_that_do_not_hold(rt: HostRuntime) {
    check_table(&rt, CUTS);
}

// To no node; and after Na3 to the root of the tree of one ply.
const REFERENCES: &str =
    "after-e4 | 0.5 | - | 2 after-e4 0.5 | 0300000007 => Answer(Check(RefUnknown)): reference to no closed node
after-e4-e5 | 1.0 | Na3 | 2 after-e4-e5 1.0 | 0501 0300000000 01*19 => \
    Answer(Check(RefDiffers)): reference to another position
after-e4 | 1.0 | Na3 | 2 after-e4 1.0 | 0501 0300000000 01*19 => \
    Answer(Check(Shorter(1))): a game of 1 plies reaches the diagram";

#[test]
fn references_that_do_not_hold(rt: HostRuntime) {
    check_table(&rt, REFERENCES);
}

// What is refused is not explained: records that are no certificate of e4; one of e4 in two plies; and a header of half
// a move more than 64.0, which names no problem.
const WRONG: &str =
    "after-e4 | 0.5 | e4 | 2 after-e4 0.5 |  => Answer(Check(Truncated)): truncated certificate
after-e4 | 0.5 | e4 | 2 after-e4 0.5 | 02 => Answer(Check(Truncated)): truncated certificate
after-e4 | 0.5 | e4 | 2 after-e4 0.5 | 0101 => Answer(Check(Trailing)): bytes after the certificate
after-e4 | 0.5 | e4 | 2 after-e4 0.5 | 04 => Answer(Check(UnknownRecord(4))): unknown record byte 4
after-e4 | 1.0 | - | 1 after-e4 1.0 | 01*22 => Answer(Check(Shorter(1))): a game of 1 plies reaches the diagram
array | 64.0 | - |  | 50474331 81 24533642 11111111 00*16 99999999 acdbbeca => NoProblem: certificate for no problem";

#[test]
fn certificates_that_are_refused(rt: HostRuntime) {
    check_table(&rt, WRONG);
}

const EXPANDED: &str = "after-e4-e5 | 1.0 | e4 d5 | 1 after-e4-e5 1.0 | 01*22";

// How many writes the explanation of e4 d5 takes: one for each of its three lines, and one for the last.
const WRITES: u64 = 4;

// This is answered where one write fails, after this number of calls.
fn check_write<R: Abort + AllocGlobal>(rt: &R, bytes: &[u8], at: u64, answer: &str, calls: u64) {
    let mut out = ToWrite::new(FailsAt::new(Vec::new(rt.alloc()), at, ErrorKind::Other));
    let said = explain_bytes(rt, EXPANDED, bytes, &mut out);
    assert_eq!(rt; said.as_str(), answer, "{at}");
    assert_eq!(rt; out.into_inner().calls(), calls, "{at}");
}

// Each write that fails is the last one.
#[test]
fn writes_that_fail(rt: HostRuntime) {
    let bytes = bytes_of(&rt, EXPANDED);
    check_write(&rt, bytes.as_slice(), MANY, "()", WRITES);
    for at in 0..WRITES {
        let calls = at.saturating_add(1);
        check_write(&rt, bytes.as_slice(), at, "Write: write fault", calls);
    }
}

// The bytes, one a call, and a failure at a call.
fn failing(bytes: &[u8], at: u64) -> FromRead<FailsAt<OneByte<&[u8]>>> {
    FromRead::new(FailsAt::new(OneByte::new(bytes), at, ErrorKind::Other))
}

// A reading that fails ends the explanation before it is written.
#[test]
fn readings_that_fail(rt: HostRuntime) {
    let bytes = bytes_of(&rt, EXPANDED);
    for at in [0, 1, 40] {
        let mut out = ToWrite::new(Vec::new(rt.alloc()));
        let said = explain(&rt, EXPANDED, &mut failing(bytes.as_slice(), at), &mut out);
        assert_eq!(rt; said.as_str(), "Answer(Check(Read)): read fault", "{at}");
        assert!(rt; out.into_inner().is_empty());
    }
}
