//! What is said, in words, of a line of moves and of what a certificate has along it: sentences for chess
//! players, whose numbers are those of the proved bounds. No clause speaks of the words. This crate names no checker.
#![tactic(auto)]

mod counts;
mod distances;
mod ending;
mod fares;
mod journey_words;
mod journeys;
mod names;
mod numbers;
mod pairing;
pub mod phrases;
mod prices;
mod sentences;
mod tally;
mod toll_words;
mod tolls;
mod travel;
mod words;

pub use counts::{expanded, put_expanded, untold};
pub use distances::{Distances, GrowingDistances};
pub use ending::Ending;
pub use fares::GrowingFares;
pub use names::{put_all, put_number, put_things};
pub use numbers::Node;
pub use sentences::{
    Grounds, Sentence, ended, put_reason_of_bounds, put_reason_of_cut, reason_of_bounds,
    reason_of_cut,
};
pub use tally::{Tally, first_code};
