//! Distances of men alone on the board, and the bound by travel: in how many plies the men of a
//! colour can come to their squares of a diagram.
#![tactic(auto)]

mod after_move;
mod bands;
mod castling;
mod distances;
mod laws;
mod least_rows;
mod misplaced;
mod needs;
mod numbers;
mod pawn_table;
mod price_cuts;
mod promotion_table;
mod rows;
mod sources;
mod travel;
mod travel_by_rows;

pub use distances::distance;
pub use laws::{origins_law, travel_law};
pub use needs::{Ways, need};
pub use price_cuts::{prices_exclude, prices_exclude_by};
pub use rows::Rows;
pub use travel::Travel;
pub use travel_by_rows::TravelByRows;

// What the test of prices takes.
pub use pg_price_lists::Prices;
