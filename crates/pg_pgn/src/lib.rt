//! Games in PGN (the import format of the PGN standard, sections 7 and 8), in the letters of six languages and in
//! figurines.
#![tactic(auto)]

mod ends;
mod fault;
mod games;
mod languages;
mod laws;
mod letters;
mod listing;
mod naming;
mod places;
mod problems;
mod reading;
mod signs;
mod tags;
mod tokens;
mod words;
mod writing;

pub use ends::write_ends;
pub use fault::{FormFault, PgnFault, ProblemsFault};
pub use games::PgnGames;
pub use languages::{fitting, letters_of, name_of};
pub use laws::{one_file_of_games, written_games_are_read};
pub use letters::Letters;
pub use listing::write_list;
pub use problems::write_problems;
pub use reading::read_pgn;
pub use writing::{write_game, write_pgn, write_pgn_and};
