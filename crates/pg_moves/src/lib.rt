//! The legal moves of a position, in canonical order, and how many games go on from it.
#![tactic(auto)]

mod counting;
mod cursor;
mod fault;
mod generate;
mod guards;
mod kings;
mod laws;
mod leaves;
mod men;
mod parries;
mod pawns;
mod pins;
mod places;
mod player;
mod progress;
mod search;
mod sources;
mod targets;
mod turns;

pub use counting::{count, count_legal, count_watched};
pub use cursor::{LegalMoves, Peeked};
pub use fault::CountFault;
pub use generate::{legal_moves, next_legal};
pub use laws::{moves_and_play_are_functions, next_in_list, one_game_count, one_move_list};
pub use progress::{CountProgress, Unwatched};
