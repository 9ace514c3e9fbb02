//! What a colour's men are charged by many tariffs, sixteen by sixteen.

use std::simd::i16x16;
use std::simd::num::SimdInt;

/// A number for each of sixteen tariffs, in sixteenths of a ply: from -8000 to 8000, `NO_PLAN` or `UNKNOWN`.
pub(crate) type Block = [i16; 16];

/// No plan. With any charge it is above each limit but `NO_LIMIT`.
pub(crate) const NO_PLAN: i16 = 16_000;

/// Not reckoned yet. With any charge, and with no plan, it is above no limit.
pub(crate) const UNKNOWN: i16 = -16_000;

/// What is above all that is charged.
pub(crate) const NO_LIMIT: i16 = i16::MAX;

// What is kept of a charge. Where it is beyond these ends a tariff may exclude less by what is kept, and never more: a
// colour that is charged less than the first never makes a sum above nothing.
const LEAST: i64 = -8_000;

const MOST: i64 = 8_000;

/// What the cheapest plan of a colour is charged, as it is kept.
pub(crate) fn kept(least: Option<i64>) -> i16 {
    match least {
        None => NO_PLAN,
        Some(charged) => i16::try_from(charged.max(LEAST).min(MOST)).unwrap_or(UNKNOWN),
    }
}

/// What plies pay for, as it is kept.
pub(crate) fn kept_limit(paid: u32) -> i16 {
    match i16::try_from(paid) {
        Ok(paid) => if i64::from(paid) < MOST {
            paid
        } else {
            NO_LIMIT
        },
        Err(_) => NO_LIMIT,
    }
}

// Which of sixteen tariffs charge both colours more than a limit, as bits.
#[inline(always)]
fn above(white: &Block, black: &Block, limits: &Block) -> u64 {
    i16x16::from_array(*white)
        .saturating_add(i16x16::from_array(*black))
        .simd_gt(i16x16::from_array(*limits))
        .to_bitmask()
}

/// The first tariff that is known to charge both colours more than its limit.
pub(crate) fn first_above(white: &[Block], black: &[Block], limits: &[Block]) -> Option<usize> {
    for at in 0..white.len() {
        let (Some(ours), Some(theirs), Some(most)) = (white.get(at), black.get(at), limits.get(at))
        else {
            return None;
        };
        let above = above(ours, theirs, most);
        if above != 0 {
            return Some(
                at.saturating_mul(16)
                    .saturating_add(above.trailing_zeros() as usize),
            );
        }
    }
    None
}
