//! Explanations that are refused memory.

use super::*;
use pg_checker::{AnswerFault, Fault, open};
use pg_san::GamesFault;
use pg_trial::{Counted, named_expansions};

const AFTER_E4_E5: &str = "rnbqkbnr/pppp1ppp/8/4p3/4P3/8/PPPP1PPP/RNBQKBNR";

// The answer to e4 e5 by a certificate of 22 named expansions, and how many bytes were written.
fn named_run(rt: &impl Abort, alloc: Global) -> (Result<(), WhyFault>, usize) {
    let bytes = named_expansions(&diagram_of(rt, AFTER_E4_E5));
    let mut source = FromRead::new(bytes.as_slice());
    let mut opened = open(&mut source).expect(rt, "a problem");
    let bounds: Vec<Box<dyn Bound>> = Vec::new(alloc);
    let mut out = ToWrite::new(Counted::new());
    let answer = why(
        alloc,
        &mut opened,
        "e4",
        &[],
        &bounds,
        &mut source,
        &mut out,
        MANY,
        22,
    );
    (answer, out.into_inner().bytes())
}

// How many bytes three lines have: of the start, of the node after e4, and the verdict.
const BYTES: usize = 69 + 47 + 25;

// Passes too where `rt try --test --fail-alloc N` refuses the N-th growth: want of memory is told,
// with nothing written.
#[test]
fn refused_growths(rt: HostRuntime) {
    for _ in 0..9u8 {
        let (answer, bytes) = named_run(&rt, rt.alloc());
        match answer {
            Ok(()) => assert_eq!(rt; bytes, BYTES),
            Err(fault) => {
                let lacks = fault == WhyFault::Games(GamesFault::Memory)
                    || fault == WhyFault::Answer(AnswerFault::Memory)
                    || fault == WhyFault::Answer(AnswerFault::Check(Fault::Memory));
                assert!(rt; lacks);
                assert_eq!(rt; bytes, 0);
            }
        }
    }
}
