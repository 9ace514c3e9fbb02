//! Words that stand beside moves elsewhere, and are none here.

use crate::foreign::is_castling;

// What moves begin with that name a man, and castling.
const LETTERS: &str = "KQRBNSO";

// Whether a word is the result of a game.
fn is_result(word: &str) -> bool {
    matches!(word, "1-0" | "0-1" | "1/2-1/2" | "½-½" | "*")
}

// Whether a word is digits alone.
pub(crate) fn is_digits(word: &str) -> bool {
    word.as_bytes().iter().all(|byte| byte.is_ascii_digit())
}

// Whether a word that begins with this letter may name a man as another language does, or a pawn: a capital letter, and
// a rank somewhere behind it.
fn is_of_man(first: char, word: &str) -> bool {
    let is_capital = first.is_ascii_uppercase() || !first.is_ascii() && first.is_alphabetic();
    is_capital && !LETTERS.contains(first) && word.contains(|c: char| matches!(c, '1'..='8'))
}

// Whether a character parts words elsewhere, and not here.
fn is_other_space(letter: char) -> bool {
    matches!(letter, '\u{a0}' | '\u{2007}' | '\u{2009}' | '\u{202f}')
}

// What is said of a word by the character that it begins with.
fn sentence_on_front(first: char) -> Option<&'static str> {
    match first {
        '{' | '}' | ';' => Some("comments are not read; leave it out"),
        '(' | ')' => Some("variations are not read; leave it out"),
        '[' => Some("tag pairs are not read; leave it out"),
        '$' => Some("glyphs are not read; leave it out"),
        '\u{2654}'..='\u{265f}' => Some("men are K, Q, R, B and N, not figurines"),
        '\u{feff}' => Some("a byte order mark stands before it"),
        _ => None,
    }
}

// What is said of a word that is no move of any kind, where it is known what else it is: a result, a number without a
// dot, a comment and the like, a figurine, castling, or a move in another language's letters.
pub(crate) fn sentence_on(word: &str) -> Option<&'static str> {
    if is_result(word) {
        return Some("results are not read; leave it out");
    }
    if is_digits(word) {
        return Some("a move number has a dot behind it");
    }
    if word.contains(is_other_space) {
        return Some("a no-break space stands in it: write a plain one");
    }
    if is_castling(word) {
        return Some("castling is not legal there");
    }
    match word.chars().next() {
        None => None,
        Some('P') if is_of_man('P', word) => Some("a pawn has no letter, a knight is N"),
        Some(first) if is_of_man(first, word) => Some("men are K, Q, R, B and N, as in English"),
        Some(first) => sentence_on_front(first),
    }
}
