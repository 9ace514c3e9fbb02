//! Diagrams, positions and lengths of games as text: Forsyth-Edwards notation (the PGN standard,
//! section 16.1) and lengths such as `18.5`.
#![tactic(auto)]

mod details;
mod details_writing;
mod diagram;
mod fault;
mod fields;
mod games;
pub mod laws;
mod length;
mod letters;
mod numbers;
mod packing;
mod placement;
pub mod text;
mod writing;

pub use diagram::Diagram;
pub use fault::{FenFault, LengthFault};
pub use fields::next_field;
pub use games::{FenGame, read_position, write_position};
pub use length::Length;
pub use letters::{letter_of, man_of};
