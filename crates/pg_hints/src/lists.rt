//! The word of a list that is no move, and what it is, or the legal moves that are most like it.

use crate::Hint;
use crate::foreign::move_meant_by;
use crate::places::line_at;
use crate::strangers::sentence_on;
use arrayvec::ArrayString;
use pg_moves::next_legal;
use pg_position::Position;
use pg_san::{San, read, write};
use std::alloc::{AllocError, Global};
use std::fmt;
use std::fmt::Write;
use strsim::levenshtein;

// The most legal moves that are named.
const NAMED: usize = 3;

// The most bytes of a word that are shown and compared.
const SHOWN: usize = 24;

// A word as it is shown. Behind it a line has room for the longest moves.
type Quoted = ArrayString<56>;

// The word without a move number at its front, as a list is read.
fn without_move_number(word: &str) -> &str {
    let rest = word.trim_start_matches(|c: char| c.is_ascii_digit());
    let behind = rest.trim_start_matches('.');
    if rest.len() < word.len() && behind.len() < rest.len() {
        behind
    } else {
        word
    }
}

// The position before the word of this ply of a line, and that word; none where a word before it is no move.
fn word_at(line: &str, ply: usize) -> Option<(Position, &str)> {
    let mut position = Position::array();
    let mut at = 0usize;
    for word in line.split([' ', '\t']) {
        let text = without_move_number(word);
        if !text.is_empty() {
            at = at.saturating_add(1);
            if at == ply {
                return Some((position, text));
            }
            match read(&position, text) {
                Ok(m) => match position.play(m) {
                    Ok(next) => position = next,
                    Err(_) => return None,
                },
                Err(_) => return None,
            }
        }
    }
    None
}

// Legal moves with how far their texts are from a word, the nearest first.
#[derive(Clone, Copy)]
struct Nearest {
    moves: [Option<(usize, San)>; NAMED],
}

impl Nearest {
    // Takes a move in behind those that are as near; the farthest goes.
    fn take(&mut self, distance: usize, san: San) {
        let mut next = Some((distance, san));
        for place in self.moves.iter_mut() {
            if let Some((own, _)) = next {
                let is_behind = match place {
                    Some((other, _)) => *other <= own,
                    None => false,
                };
                if !is_behind {
                    let gone = *place;
                    *place = next;
                    next = gone;
                }
            }
        }
    }
}

// The legal moves of a position whose texts are nearest to a word.
fn nearest_to(alloc: Global, position: &Position, word: &str) -> Result<Nearest, AllocError> {
    let mut found = Nearest {
        moves: [None; NAMED],
    };
    let mut last = None;
    for _ in 0..u16::MAX {
        let Some(m) = next_legal(position, last) else {
            return Ok(found);
        };
        let san = write(position, m);
        found.take(levenshtein(alloc, word, san.as_str())?, san);
        last = Some(m);
    }
    Ok(found)
}

// A word in quotes, with escapes for what cannot be shown: as much of it as has room, and two points where that is not
// all.
fn quoted(word: &str) -> Quoted {
    for cut in 0..SHOWN {
        let shown = &word[..word.floor_char_boundary(SHOWN - cut)];
        let points = if shown.len() < word.len() { ".." } else { "" };
        let mut text = Quoted::new();
        if write!(text, "{shown:?}{points}").is_ok() {
            return text;
        }
    }
    Quoted::new()
}

// Writes a word as it is quoted, and the moves that are nearest to it.
fn write_moves(quoted: &str, nearest: &Nearest, hint: &mut Hint) -> fmt::Result {
    write!(hint, "the word is {quoted}; ")?;
    let mut before = "legal there: ";
    for place in nearest.moves.iter() {
        if let Some((_, san)) = place {
            write!(hint, "{before}{}", san.as_str())?;
            before = ", ";
        }
    }
    if before == ", " {
        Ok(())
    } else {
        write!(hint, "no move is legal there")
    }
}

// Writes a word as it is quoted, and what else it is, or the legal moves of a position that are nearest to it, if
// memory is not refused.
fn write_word(alloc: Global, position: &Position, word: &str, hint: &mut Hint) -> fmt::Result {
    let quoted = quoted(word);
    if let Some(san) = move_meant_by(position, word) {
        return write!(
            hint,
            "the word is {}; write {}",
            quoted.as_str(),
            san.as_str()
        );
    }
    if let Some(sentence) = sentence_on(word) {
        return write!(hint, "the word is {}; {sentence}", quoted.as_str());
    }
    let compared = &word[..word.floor_char_boundary(SHOWN)];
    match nearest_to(alloc, position, compared) {
        Ok(nearest) => write_moves(quoted.as_str(), &nearest, hint),
        Err(AllocError) => Ok(()),
    }
}

// The position behind the moves of a line, a game by itself; none where a word of it is no move.
fn end_of(line: &str) -> Option<Position> {
    let mut position = Position::array();
    for word in line.split([' ', '\t']) {
        let text = without_move_number(word);
        if !text.is_empty() {
            let m = read(&position, text).ok()?;
            position = position.play(m).ok()?;
        }
    }
    Some(position)
}

// Whether the game of a line goes on in the next one, which is refused at this ply: its first move is legal behind that
// game, and is the one that is refused, or has a number above 1.
fn goes_on(before: &str, line: &str, ply: usize) -> bool {
    let (Some(end), Some((_, word))) = (end_of(before), word_at(line, 1)) else {
        return false;
    };
    let numbered = line.trim_start();
    let is_later = numbered.starts_with(|c: char| c.is_ascii_digit())
        && !numbered.starts_with("1.");
    (ply == 1 || is_later) && read(&end, word).is_ok()
}

// Whether the game of the line before this one goes on in it.
fn goes_on_in(list: &str, line: usize, ply: usize) -> bool {
    let (Some(before), Some(text)) = (line_at(list, line.saturating_sub(1)), line_at(list, line))
    else {
        return false;
    };
    goes_on(
        before.trim_end_matches('\r'),
        text.trim_end_matches('\r'),
        ply,
    )
}

/// Whether a text begins with a move of the initial array, as a list is read.
pub fn is_like_game(text: &str) -> bool {
    match word_at(text, 1) {
        Some((position, word)) => read(&position, word).is_ok(),
        None => false,
    }
}

/// The word of a list of games that is refused, by its line and its ply in it, both from 1, and what it is where that
/// is known, as a result or a comment, or the legal move that is meant, as by `e:d5` or `Dxd5`; else up to three legal
/// moves whose texts are nearest to it. Of a word of more than 24 bytes, or of much that wants escapes, the front is shown
/// with two points behind it. In place of all that, whether the game of the line before goes on there. Nothing where there
/// is no such word, or where memory is refused, which is taken from `alloc`.
pub fn on_move(alloc: Global, list: &str, line: usize, ply: usize) -> Hint {
    let mut hint = Hint::new();
    let Some(text) = line_at(list, line) else {
        return hint;
    };
    if goes_on_in(list, line, ply) {
        let before = line.saturating_sub(1);
        let _ = write!(
            hint,
            "it goes on with the game of line {before}; a game is one line"
        );
        return hint;
    }
    let text = text.strip_suffix('\r').unwrap_or(text);
    if let Some((position, word)) = word_at(text, ply) {
        let _ = write_word(alloc, &position, word, &mut hint);
    }
    hint
}
