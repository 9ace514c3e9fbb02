//! The bound by pawn files.
#![tactic(auto)]

mod files;
mod prices;
mod shifts;

pub use prices::prices_exclude;
pub use shifts::{PawnFiles, shift_need};
