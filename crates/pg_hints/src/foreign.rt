//! Moves and diagrams as they are written elsewhere, and as one writes them here.

use arrayvec::ArrayString;
use pg_fen::Diagram;
use pg_position::Position;
use pg_san::{San, read, write};
use std::fmt::Write;

// The longest word that is read otherwise.
type Word = ArrayString<24>;

// A placement, at most.
type Placement = ArrayString<72>;

// The letters of men, and the same men in German and in French.
const MEN: &str = "KQRBNP";

const LANGUAGES: [&str; 2] = ["KDTLSB", "RDTFCP"];

// What is written here for a character of a move; nothing where it is left out, as a pawn is.
fn plain(letter: char) -> Option<char> {
    match letter {
        ':' | '\u{d7}' => Some('x'),
        '\u{2010}'..='\u{2015}' | '\u{2212}' => Some('-'),
        'o' => Some('O'),
        '\u{2654}' | '\u{265a}' => Some('K'),
        '\u{2655}' | '\u{265b}' => Some('Q'),
        '\u{2656}' | '\u{265c}' => Some('R'),
        '\u{2657}' | '\u{265d}' => Some('B'),
        '\u{2658}' | '\u{265e}' => Some('N'),
        '\u{2659}' | '\u{265f}' | ',' | ';' => None,
        other => Some(other),
    }
}

// A word in the characters that are written here; none where it is too long.
fn plain_word(word: &str) -> Option<Word> {
    let mut text = Word::new();
    for letter in word.chars() {
        if let Some(letter) = plain(letter) {
            text.write_char(letter).ok()?;
        }
    }
    Some(text)
}

// The man for which a letter at the front of a move stands in German, Dutch, French, Spanish or Italian.
fn man_by(letter: char) -> Option<char> {
    match letter {
        'D' => Some('Q'),
        'T' => Some('R'),
        'L' | 'F' | 'A' => Some('B'),
        'C' | 'P' => Some('N'),
        _ => None,
    }
}

// The legal move that a text names, as it is written.
fn legal_in(position: &Position, text: &str) -> Option<San> {
    match read(position, text) {
        Ok(m) => Some(write(position, m)),
        Err(_) => None,
    }
}

// The legal move that a word means whose first letter is a man's in another language. A `P` may be a pawn's too.
fn translated(position: &Position, word: &str) -> Option<San> {
    let mut letters = word.chars();
    let first = letters.next()?;
    let rest = letters.as_str();
    let mut text = Word::new();
    text.write_char(man_by(first)?).ok()?;
    text.write_str(rest).ok()?;
    let by_man = legal_in(position, text.as_str());
    if first != 'P' {
        return by_man;
    }
    match (by_man, legal_in(position, rest)) {
        (None, by_pawn) => by_pawn,
        (by_man, None) => by_man,
        _ => None,
    }
}

// The one legal move that is meant by a word which names none: with `:` or a cross for `x`, a long dash, small letters
// of castling, a comma behind it, figurines, or letters of other languages.
pub(crate) fn move_meant_by(position: &Position, word: &str) -> Option<San> {
    let plain = plain_word(word)?;
    match legal_in(position, plain.as_str()) {
        Some(san) => Some(san),
        None => translated(position, plain.as_str()),
    }
}

// Whether a word says that a side castles.
pub(crate) fn is_castling(word: &str) -> bool {
    match plain_word(word) {
        Some(text) => matches!(text.as_str(), "O-O" | "O-O-O" | "0-0" | "0-0-0"),
        None => false,
    }
}

// The letter here of a man that has this one in a language; none of another letter.
fn letter_here(letter: char, letters: &str) -> Option<char> {
    let capital = letter.to_ascii_uppercase();
    let place = letters.chars().position(|other| other == capital)?;
    let man = MEN.chars().nth(place)?;
    if letter == capital {
        Some(man)
    } else {
        Some(man.to_ascii_lowercase())
    }
}

// A placement with the letters of a language in those that are written here; none where one is no man's in it.
fn placement_in(placement: &str, letters: &str) -> Option<Placement> {
    let mut text = Placement::new();
    for letter in placement.chars() {
        let here = if letter.is_alphabetic() {
            letter_here(letter, letters)?
        } else {
            letter
        };
        text.write_char(here).ok()?;
    }
    Some(text)
}

// The placement of a diagram that is meant by one in the letters of German or of French.
pub(crate) fn placement_meant_by(placement: &str) -> Option<Placement> {
    for letters in LANGUAGES {
        if let Some(text) = placement_in(placement, letters) {
            if Diagram::read(text.as_str()).is_ok() {
                return Some(text);
            }
        }
    }
    None
}
