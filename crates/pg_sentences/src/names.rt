//! Words for men, squares and numbers.

use crate::sentences::Sentence;
use arrayvec::ArrayString;
use pg_board::{Color, Kind, Square};
use pg_fen::text::digits;

// A part of a sentence.
pub(crate) type Phrase = ArrayString<64>;

pub(crate) fn color_name(color: Color) -> &'static str {
    match color {
        Color::White => "white",
        Color::Black => "black",
    }
}

pub(crate) fn kind_name(kind: Kind) -> &'static str {
    match kind {
        Kind::Pawn => "pawn",
        Kind::Knight => "knight",
        Kind::Bishop => "bishop",
        Kind::Rook => "rook",
        Kind::Queen => "queen",
        Kind::King => "king",
    }
}

/// Appends texts one after the other, up to the first that has no room. By hand, since a formatted write, which ends
/// there too, costs some fifty instructions more for each of them, and a page has such words at each cut.
pub fn put_all<const CAP: usize>(text: &mut ArrayString<CAP>, parts: &[&str]) {
    for part in parts {
        if text.try_push_str(part).is_err() {
            return;
        }
    }
}

// The digit of a number below ten.
fn digit(number: u64) -> &'static str {
    match number {
        0 => "0",
        1 => "1",
        2 => "2",
        3 => "3",
        4 => "4",
        5 => "5",
        6 => "6",
        7 => "7",
        8 => "8",
        _ => "9",
    }
}

// A number as a text.
pub(crate) fn number_name(number: u64) -> Phrase {
    let mut text = Phrase::new();
    put_number(&mut text, number);
    text
}

/// Appends a number. By hand, since a formatted write costs more.
pub fn put_number<const CAP: usize>(text: &mut ArrayString<CAP>, number: u64) {
    if number < 10 {
        put_all(text, &[digit(number)]);
    } else {
        put_all(text, &[digits(number as usize).as_str()]);
    }
}

// Appends so many things, as `many` names them, with what follows them: the words for none, for one, and for more
// behind the number. In place, since a phrase of its own is cleared and copied.
pub(crate) fn put_many(text: &mut Sentence, count: u64, none: &str, one: &str, more: &str) {
    let words = match count {
        0 => none,
        1 => one,
        _ => {
            put_number(text, count);
            more
        }
    };
    let _ = text.try_push_str(words);
}

// The letter of a square's file.
fn file_name(square: Square) -> &'static str {
    match square.file() {
        1 => "a",
        2 => "b",
        3 => "c",
        4 => "d",
        5 => "e",
        6 => "f",
        7 => "g",
        _ => "h",
    }
}

// Appends a man by its kind and square, as in `the knight on g8`.
pub(crate) fn put_man<const CAP: usize>(text: &mut ArrayString<CAP>, kind: Kind, square: Square) {
    let (file, rank) = (file_name(square), digit(u64::from(square.rank())));
    put_all(text, &["the ", kind_name(kind), " on ", file, rank]);
}

// Appends a square by its name.
pub(crate) fn put_square(text: &mut Sentence, square: Square) {
    put_all(text, &[file_name(square), digit(u64::from(square.rank()))]);
}

// A man by its kind and square.
pub(crate) fn man_name(kind: Kind, square: Square) -> Phrase {
    let mut name = Phrase::new();
    put_man(&mut name, kind, square);
    name
}

/// Appends so many things, as in `no move`, `1 move` and `2 moves`.
pub fn put_things<const CAP: usize>(
    text: &mut ArrayString<CAP>,
    count: u64,
    one: &str,
    more: &str,
) {
    match count {
        0 => put_all(text, &["no ", one]),
        1 => put_all(text, &["1 ", one]),
        _ => {
            put_number(text, count);
            put_all(text, &[" ", more]);
        }
    }
}

// The same as a phrase.
pub(crate) fn many(count: u64, one: &str, more: &str) -> Phrase {
    let mut text = Phrase::new();
    put_things(&mut text, count, one, more);
    text
}
