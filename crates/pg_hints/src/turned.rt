//! A diagram that may be upside down.

use crate::Hint;
use std::fmt;
use std::fmt::Write;

// How many letters of four ranks, from one of them on, counted from 0, are capitals or else are small.
fn count_men(placement: &str, from: usize, are_white: bool) -> usize {
    let mut count = 0usize;
    for rank in placement.split('/').skip(from).take(4) {
        let men = rank.chars().filter(|letter| {
            if are_white {
                letter.is_ascii_uppercase()
            } else {
                letter.is_ascii_lowercase()
            }
        });
        count = count.saturating_add(men.count());
    }
    count
}

// Writes the ranks from the last to the first.
fn write_turned(placement: &str, hint: &mut Hint) -> fmt::Result {
    write!(hint, "is the board upside down? turned it is ")?;
    let mut before = "";
    for number in 0..8 {
        let rank = placement.split('/').nth(7 - number).unwrap_or("");
        write!(hint, "{before}{rank}")?;
        before = "/";
    }
    Ok(())
}

/// What a diagram is with its ranks in the other order, where most white men stand on its upper half and most black men
/// on its lower one; else nothing. The text is the placement field of a FEN, or begins with it.
pub fn on_turned(text: &str) -> Hint {
    let mut hint = Hint::new();
    let placement = text.split_ascii_whitespace().next().unwrap_or("");
    let (upper, lower) = (count_men(placement, 0, true), count_men(placement, 4, true));
    let (above, below) = (
        count_men(placement, 0, false),
        count_men(placement, 4, false),
    );
    if upper > lower && below > above {
        let _ = write_turned(placement, &mut hint);
    }
    hint
}
