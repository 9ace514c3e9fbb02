//! Chess positions: attack, legal moves and the games that they make.
#![tactic(auto)]

mod array;
mod attack;
mod boards;
mod cases;
mod castling;
mod clauses;
mod direction;
mod equality;
mod futures;
mod laws;
mod legal_ways;
mod masks;
mod moves;
mod packed;
mod play;
mod position;
mod ray_tables;
mod reaching;
mod refusals;
mod rights;
mod squares;
mod state;
mod steps;
mod tables;

pub use attack::attacked;
pub use boards::{is_enemy, is_vacant, stands};
pub use laws::{legal_leads_to_a_position, legal_leads_to_one_position, same_future_same_games};
pub use moves::{Move, move_order};
pub use packed::PackedPosition;
pub use position::Position;
pub use reaching::{attacks_from, is_clear, reaches};
pub use refusals::{BadPosition, Illegal};
pub use rights::{Rights, Wing};
pub use squares::{
    ahead, castling_homes, has_ahead, home_rank, king_crossed, king_home, king_target, last_rank,
    must_promote, passed_rank, rook_home,
};
