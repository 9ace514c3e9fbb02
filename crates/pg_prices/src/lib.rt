//! What a search for certificates of version 2 reckons with: least assignments of men to the squares
//! of a diagram with their prices, the distances that they are made of, and memories for them. Nothing
//! that this crate answers is trusted.
#![tactic(auto)]

mod assignment;
mod closed;
mod keys;
mod leasts;
mod lists;
mod memory;
mod needs;
mod rows;

pub use assignment::{Assignment, Costs, MOST_MEN, assign, least_costs};
pub use closed::Closed;
pub use keys::{color_key, man_key, node_key, pawn_key, right_key};
pub use leasts::{Leasts, Rest};
pub use lists::{Lists, prices_of};
pub use memory::Memory;
pub use needs::{
    NEVER, Needs, PAWN_DUMMY, TRAVEL_DUMMY, UNKNOWN, first_needs, need_by_rows, pawn_lists,
    travel_lists, travel_value,
};
pub use rows::{Rows, UNREACHABLE};
