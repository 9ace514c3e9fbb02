//! Runs that are refused memory.

use super::*;
use pg_trial::{Counted, named_expansions};
use std::fmt::Debug;

// The answer to e4 e5 and a certificate of 22 named expansions, and how many bytes were written.
fn named_run(rt: &impl Abort, alloc: Global) -> (Result<Verdict, RunFault>, usize) {
    let bytes = named_expansions(&diagram_of(rt, AFTER_E4_E5));
    let bounds: Vec<Box<dyn Bound>> = Vec::new(alloc);
    let mut source = FromRead::new(bytes.as_slice());
    let mut out = ToWrite::new(Counted::new());
    let answer = run_check(
        alloc,
        AFTER_E4_E5,
        "1.0",
        "1. e4 e5",
        &bounds,
        &mut source,
        &mut out,
        MANY,
        22,
    );
    (answer, out.into_inner().bytes())
}

// How many bytes the report has: four lines and the game's.
const REPORT: usize = 56 + 11 + 8 + 9 + 6;

// All was written, or nothing, and want of memory is told.
fn check_told<E: PartialEq + Debug + Drop>(
    rt: &impl Abort,
    answer: Result<(), E>,
    out: ToWrite<Counted>,
    whole: usize,
    memory: E,
) {
    let bytes = out.into_inner().bytes();
    match answer {
        Ok(()) => assert_eq!(rt; bytes, whole),
        Err(fault) => {
            assert!(rt; fault == memory, "{fault:?}");
            assert_eq!(rt; bytes, 0);
        }
    }
}

// Passes too where `rt try --test --fail-alloc N` refuses the N-th growth: want of memory is told,
// with nothing written.
#[test]
fn refused_growths_of_a_check(rt: HostRuntime) {
    for _ in 0..9u8 {
        let (answer, bytes) = named_run(&rt, rt.alloc());
        match answer {
            Ok(verdict) => {
                assert!(rt; verdict == Verdict::Sound);
                assert_eq!(rt; bytes, REPORT);
            }
            Err(fault) => {
                let games = fault == RunFault::Games(GamesFault::Memory);
                assert!(rt; games || fault == RunFault::Check(Fault::Memory));
                assert_eq!(rt; bytes, 0);
            }
        }
    }
}

// The answer to the same certificate without a list.
fn named_answer(rt: &impl Abort, alloc: Global) -> (Result<Verdict, AnswerRunFault>, usize) {
    let bytes = named_expansions(&diagram_of(rt, AFTER_E4_E5));
    let bounds: Vec<Box<dyn Bound>> = Vec::new(alloc);
    let mut source = FromRead::new(bytes.as_slice());
    let mut opened = open(&mut source).expect(rt, "a problem");
    let mut out = ToWrite::new(Counted::new());
    let answer = run_answer(alloc, &mut opened, &bounds, &mut source, &mut out, MANY, 22);
    (answer, out.into_inner().bytes())
}

// Passes too where `rt try --test --fail-alloc N` refuses the N-th growth.
#[test]
fn refused_growths_of_an_answer(rt: HostRuntime) {
    for _ in 0..9u8 {
        let (answer, bytes) = named_answer(&rt, rt.alloc());
        match answer {
            Ok(verdict) => {
                assert!(rt; verdict == Verdict::Sound);
                assert_eq!(rt; bytes, REPORT);
            }
            Err(fault) => {
                assert_eq!(rt; answer_status(&fault), 3);
                assert_eq!(rt; bytes, 0);
            }
        }
    }
}

// Passes too where `rt try --test --fail-alloc N` refuses the N-th growth.
#[test]
fn refused_growths_of_a_count(rt: HostRuntime) {
    for _ in 0..9u8 {
        let mut out = ToWrite::new(Counted::new());
        let answer = run_count_watched(rt.alloc(), ENDGAME, 3, &mut out, &mut Unwatched);
        let memory = CountRunFault::Count(CountFault::Memory);
        check_told(&rt, answer, out, 5, memory);
    }
}

// Passes too where `rt try --test --fail-alloc N` refuses the N-th growth.
#[test]
fn refused_growths_of_moves(rt: HostRuntime) {
    for _ in 0..9u8 {
        let mut out = ToWrite::new(Counted::new());
        let answer = run_moves(rt.alloc(), ENDGAME, &mut out);
        check_told(&rt, answer, out, 55, MovesFault::Memory);
    }
}

// Passes too where `rt try --test --fail-alloc N` refuses the N-th growth.
#[test]
fn refused_growths_of_a_diagram(rt: HostRuntime) {
    for _ in 0..9u8 {
        let mut out = ToWrite::new(Counted::new());
        let diagram = diagram_of(&rt, AFTER_E4_E5);
        let answer = run_show(rt.alloc(), &diagram, None, &[], &mut out);
        check_told(&rt, answer, out, 284, ShowFault::Memory);
    }
}
