//! What may help where a command has no answer: second lines, which point to what is wrong. No answer
//! depends on them. A clause says what would mislead if it were false: the line of a game, its plies and its end
//! (`line_of`, `line_like`, `misfit_of`), the place of a byte that is no text (`bad_byte`), and what a man is called
//! (`name_of`). That these find what is there, and all that the others say, is tested.
#![tactic(auto)]

mod diagrams;
mod files;
mod foreign;
mod lists;
mod meant;
mod men;
mod misfits;
mod places;
mod problems;
mod searches;
mod strangers;
mod turned;
mod words;

use arrayvec::ArrayString;
pub use diagrams::on_diagram;
pub use files::packing_of;
pub use lists::{is_like_game, on_move};
pub use meant::{is_open, meant_by};
pub use men::name_of;
pub use misfits::{Misfit, misfit_of};
pub use places::{Place, bad_byte, line_like, line_of};
pub use problems::{Remark, on_few_words, on_name, on_placement, on_problem_length};
pub use searches::{on_known, on_length, on_limit};
pub use turned::on_turned;
pub use words::{hyphen_wanted_in, is_fen_in_words, is_game_in_words, is_unit_apart_in};

/// A line, at most; empty where there is nothing to say.
pub type Hint = ArrayString<120>;
