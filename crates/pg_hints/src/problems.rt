//! What is wrong with a line of a list of problems, at which column, and what is meant.

use crate::Hint;
use crate::diagrams::on_diagram;
use crate::meant::{is_open, meant_by};
use pg_fen::{FenFault, Length};
use std::fmt;
use std::fmt::Write;

/// What is said of a place in a line: its column, in characters counted from 1, and the sentence.
#[derive(Clone, Copy)]
pub struct Remark {
    pub column: usize,
    pub hint: Hint,
}

impl Remark {
    // A sentence on what stands at this column.
    fn new(column: usize, sentence: &str) -> Remark {
        let mut hint = Hint::new();
        let _ = hint.write_str(sentence);
        Remark { column, hint }
    }
}

// A word of a line, and the column at which it begins.
#[derive(Clone, Copy)]
struct Word<'a> {
    column: usize,
    text: &'a str,
}

// The word of a line with this number, counted from 0; none where it has fewer.
fn word_at(line: &str, number: usize) -> Option<Word<'_>> {
    let mut column = 1usize;
    let mut count = 0usize;
    for text in line.split([' ', '\t']) {
        if !text.is_empty() {
            if count == number {
                return Some(Word { column, text });
            }
            count = count.saturating_add(1);
        }
        column = column
            .saturating_add(text.chars().count())
            .saturating_add(1);
    }
    None
}

// Whether a word has the ranks of a placement.
fn is_like_placement(word: &str) -> bool {
    word.as_bytes().iter().filter(|b| **b == b'/').count() >= 7
}

// Whether a character may stand in a name.
fn may_name(letter: char) -> bool {
    letter.is_ascii_alphanumeric() || matches!(letter, '-' | '_' | '.')
}

// What is said of the first semicolon in a word, if there is one.
fn on_semicolon(word: Word<'_>) -> Option<Remark> {
    let place = word.text.chars().position(|letter| letter == ';')?;
    let sentence = "write spaces or tabs for ';' between a name, a diagram and a length";
    Some(Remark::new(word.column.saturating_add(place), sentence))
}

// What is said of the first character of a word that stands in no name, if there is one.
fn on_letter(word: Word<'_>) -> Option<Remark> {
    let place = word.text.chars().position(|letter| !may_name(letter))?;
    let letter = word.text.chars().nth(place)?;
    let column = word.column.saturating_add(place);
    let mut hint = Hint::new();
    let meant = word.text.trim_end_matches(letter);
    let _ = if !meant.is_empty() && meant.chars().all(may_name) {
        write!(hint, "no {letter:?} stands in a name: write {meant}")
    } else if letter.is_ascii() {
        write!(
            hint,
            "{letter:?} in the name; it has letters, digits, '-', '_' and '.'"
        )
    } else {
        let number = u32::from(letter);
        write!(
            hint,
            "{letter:?} (U+{number:04X}) in the name; letters are a to z and A to Z"
        )
    };
    Some(Remark { column, hint })
}

/// What is wrong with the first word of a line, which is no name: the letter that stands in none, a semicolon in place of
/// a space, a diagram in the place of a name.
pub fn on_name(line: &str) -> Option<Remark> {
    let word = word_at(line, 0)?;
    if let Some(remark) = on_semicolon(word) {
        return Some(remark);
    }
    if is_like_placement(word.text) {
        return Some(Remark::new(word.column, "a name stands before the diagram"));
    }
    match on_letter(word) {
        Some(remark) => Some(remark),
        None => Some(Remark::new(word.column, "a name begins with no dot")),
    }
}

/// What is wanted behind the first two words of a line, where it has no more.
pub fn on_few_words(line: &str) -> Option<Remark> {
    let word = word_at(line, 1)?;
    if let Some(remark) = on_semicolon(word) {
        return Some(remark);
    }
    let sentence = if is_like_placement(word.text) {
        "a length stands behind the diagram, as 2.0 or 2.5"
    } else {
        "a diagram and a length stand behind the name"
    };
    Some(Remark::new(word.column, sentence))
}

// Whether a word is the number of a move, and dots.
fn is_move_number(word: &str) -> bool {
    let rest = word.trim_start_matches(|c: char| c.is_ascii_digit());
    rest.len() < word.len() && !rest.is_empty() && rest.trim_start_matches('.').is_empty()
}

// Which word of a line, from the third on, looks like a placement, counted from 0.
fn placement_in(line: &str) -> Option<usize> {
    let words = line.split([' ', '\t']).filter(|word| !word.is_empty());
    let place = words.skip(2).position(is_like_placement)?;
    Some(place.saturating_add(2))
}

// Writes the first words of a line as one name.
fn write_name(line: &str, count: usize, hint: &mut Hint) -> fmt::Result {
    hint.write_str("a name is one word: write ")?;
    let words = line.split([' ', '\t']).filter(|word| !word.is_empty());
    for (i, word) in words.take(count).enumerate() {
        if i > 0 {
            hint.write_str("_")?;
        }
        hint.write_str(word)?;
    }
    Ok(())
}

// What is said of a name of so many words.
fn on_words(line: &str, column: usize, count: usize) -> Remark {
    let mut hint = Hint::new();
    match write_name(line, count, &mut hint) {
        Ok(()) => Remark { column, hint },
        Err(_) => Remark::new(column, "a name is one word"),
    }
}

/// What is wrong with the second word of a line, which is refused as a diagram with this fault: a name of more words, a
/// length before the diagram, the game of the line before, or what `on_diagram` says.
pub fn on_placement(line: &str, fault: FenFault) -> Option<Remark> {
    let word = word_at(line, 1)?;
    if !is_like_placement(word.text) {
        if let Some(place) = placement_in(line) {
            if place == 2 && Length::read(word.text).is_ok() {
                return Some(Remark::new(word.column, "the diagram stands before the length"));
            }
            return Some(on_words(line, word.column, place));
        }
        if is_move_number(word_at(line, 0)?.text) {
            return Some(Remark::new(1, "a problem and its game are one line"));
        }
    }
    let hint = on_diagram(word.text, fault);
    if hint.is_empty() {
        None
    } else {
        Some(Remark {
            column: word.column,
            hint,
        })
    }
}

/// What is wrong with the third word of a line, which is no length: another field of a FEN, or a length that is written
/// otherwise or left open.
pub fn on_problem_length(line: &str) -> Option<Remark> {
    let word = word_at(line, 2)?;
    if matches!(word.text, "w" | "b") {
        let sentence = "the length stands behind the first field of the FEN: leave the others out";
        return Some(Remark::new(word.column, sentence));
    }
    let mut hint = Hint::new();
    let _ = match meant_by(word.text) {
        Some(length) => write!(
            hint,
            "a length is in moves: write {}",
            length.write().as_str()
        ),
        None if is_open(word.text) => write!(
            hint,
            "one length is wanted; `pg solve DIAGRAM` finds the least that has a game"
        ),
        None => write!(hint, "a length is in moves, as 2.0 or 2.5"),
    };
    Some(Remark {
        column: word.column,
        hint,
    })
}
