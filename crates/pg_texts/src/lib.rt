//! What is written, as text, over a sink: the legal moves of a position, the number of games from it, a
//! board, games, and the report on a diagram, a length and a list of games; and a certificate of version
//! 1, copied as one of version 2.
#![tactic(auto)]

mod boards;
mod counts;
mod fault;
mod moves;
mod movetext;
mod report;
mod upgrading;
mod verdict;

pub use boards::write_board;
pub use counts::{run_count, run_count_watched};
pub use fault::{CountRunFault, MovesFault, UpgradeFault};
pub use moves::run_moves;
pub use movetext::write_movetext;
pub use report::{write_game, write_games, write_head, write_line, write_report};
pub use upgrading::upgrade;
pub use verdict::{Verdict, verdict_on};
