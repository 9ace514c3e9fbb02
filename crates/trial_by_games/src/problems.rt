//! Problems with a tariff each, as lines of a file.
use pg_fen::{Diagram, Length};
use pg_tolls::Tariff;
use std::str::SplitWhitespace;

// A problem: its diagram, its length in plies, and a tariff to cut its tree by.
#[derive(Clone, Copy)]
pub(crate) struct Problem {
    pub(crate) diagram: Diagram,
    pub(crate) plies: u8,
    pub(crate) tariff: Tariff,
}

// The tolls that the next 64 words spell.
fn tolls_of(words: &mut SplitWhitespace<'_>) -> Option<[i8; 64]> {
    let mut tolls = [0i8; 64];
    for at in 0..64usize {
        tolls[at] = words.next()?.parse().ok()?;
    }
    Some(tolls)
}

// The problem of a line: a placement, a length such as `13.0`, the two weights of a tariff and its 128 tolls.
pub(crate) fn problem_of(line: &str) -> Option<Problem> {
    let mut words = line.split_whitespace();
    let diagram = Diagram::read(words.next()?).ok()?;
    let plies = Length::read(words.next()?).ok()?.plies();
    let weights = [words.next()?.parse().ok()?, words.next()?.parse().ok()?];
    let tolls = [tolls_of(&mut words)?, tolls_of(&mut words)?];
    if words.next().is_some() {
        return None;
    }
    let tariff = Tariff { weights, tolls };
    Some(Problem {
        diagram,
        plies,
        tariff,
    })
}
