//! Bounds: tests that exclude games to a diagram. The trait `Bound` with its law, and the bounds by
//! captures and by promotions.
#![tactic(auto)]

mod bound;
mod boxes;
mod captures;
mod classes;
mod counts;
mod prices;
mod promotions;
mod taking;

pub use bound::Bound;
pub use boxes::{ask, first_excludes, first_excludes_after};
pub use captures::{Captures, owed, plies_left, victims_of};
pub use classes::Class;
pub use counts::{all_men, pawns};
pub use prices::price_sum;
pub use promotions::{Promotions, is_short, shortage};
