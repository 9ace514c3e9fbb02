//! Words of the command line that are one text.

use crate::lists::is_like_game;

// Whether a text has the eight ranks of a placement.
fn is_like_placement(word: &str) -> bool {
    word.as_bytes().iter().filter(|b| **b == b'/').count() == 7
}

// Whether a word has the eight ranks of a placement, and the next is a side to move.
fn is_fen_in(word: &str, next: &str) -> bool {
    is_like_placement(word) && matches!(next, "w" | "b")
}

/// Whether one of the words is a placement, and the next the side to move: the fields of a FEN that is not quoted.
pub fn is_fen_in_words(words: &[String]) -> bool {
    words
        .iter()
        .zip(words.iter().skip(1))
        .any(|(word, next)| is_fen_in(word.as_str(), next.as_str()))
}

// Whether a word begins as a game, and is not what the word before it wants.
fn is_game_behind(before: &str, word: &str) -> bool {
    before != "--game" && is_like_game(word)
}

/// Whether the words ask to solve a problem, and one of them, not behind `--game`, begins as a game.
pub fn is_game_in_words(words: &[String]) -> bool {
    let mut commands = words.iter().skip(1).take(1);
    commands.any(|word| word.as_str() == "solve")
        && words.iter().zip(words.iter().skip(1)).any(|(before, word)| is_game_behind(
            before.as_str(),
            word.as_str(),
        ))
}

// Whether a word is a unit of time by itself, two words behind that which wants a time.
fn is_unit_behind(before: &str, word: &str) -> bool {
    before == "--minutes" && matches!(word, "s" | "m" | "h" | "min" | "minutes")
}

/// Whether the words have the unit of a time apart from its number.
pub fn is_unit_apart_in(words: &[String]) -> bool {
    words.iter().zip(words.iter().skip(2)).any(|(before, word)| is_unit_behind(
        before.as_str(),
        word.as_str(),
    ))
}

// Whether a word is an option whose name is longer than a letter, with one hyphen before it.
fn wants_hyphen(word: &str) -> bool {
    match word.strip_prefix('-') {
        Some(name) => name.len() > 1 && name.starts_with(|c: char| c.is_ascii_lowercase()),
        None => false,
    }
}

/// The first of the words that is an option with one hyphen where two are wanted, if one is.
pub fn hyphen_wanted_in(words: &[String]) -> Option<&str> {
    for word in words {
        if wants_hyphen(word.as_str()) {
            return Some(word.as_str());
        }
    }
    None
}
