//! Moves as text: standard algebraic notation (the PGN standard, section 8.2.3), written in one way
//! and read in many; and lists of games.
#![tactic(auto)]

mod adding;
mod castling;
mod cores;
mod fault;
mod games;
mod known;
mod laws;
mod lines;
mod list_laws;
mod listing;
mod listing_fault;
mod matching;
mod numbers;
mod reading;
mod rivals;
mod said;
mod sources;
mod spelling;
mod words;
mod writing;
mod written;

pub use adding::AddFault;
pub use fault::SanFault;
pub use games::Games;
pub use known::KnownReadings;
pub use laws::{
    one_text, text_grammar, texts_differ, written_text_is_matched, written_text_is_read,
};
pub use lines::next_line;
pub use list_laws::{games_stand_once, one_answer_to_a_text, one_list_of_games};
pub use listing::read_games;
pub use listing_fault::GamesFault;
pub use reading::read;
pub use words::next_word;
pub use writing::{San, write, write_with};
pub use written::{MOST_WRITTEN, Written, nothing_written, write_known};
