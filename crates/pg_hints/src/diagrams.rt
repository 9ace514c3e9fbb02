//! What is wrong with a text that is no diagram.

use crate::Hint;
use crate::foreign::placement_meant_by;
use pg_fen::{FenFault, Length, man_of, next_field};
use std::fmt;
use std::fmt::Write;

// The first field of a text; nothing where it has none.
fn first_field(text: &[u8]) -> &[u8] {
    match next_field(text) {
        Some((field, _)) => field,
        None => &[],
    }
}

// Whether a byte parts fields.
fn is_gap(byte: u8) -> bool {
    matches!(byte, b' ' | b'\t' | b'\n' | b'\r')
}

// How many fields a text has.
fn count_fields(text: &[u8]) -> usize {
    text.split(|b| is_gap(*b))
        .filter(|field| !field.is_empty())
        .count()
}

// How often a text has this byte.
fn times(byte: u8, text: &[u8]) -> usize {
    text.iter().filter(|b| **b == byte).count()
}

// Says how many fields a text has.
fn write_fields(text: &[u8], hint: &mut Hint) -> fmt::Result {
    let count = count_fields(text);
    let more = if count == 4 { ": add 0 1" } else { "" };
    write!(hint, "fields: {count}; a diagram has 1, a FEN 6{more}")
}

// Says how many kings each side has.
fn write_kings(placement: &[u8], hint: &mut Hint) -> fmt::Result {
    let (white, black) = (times(b'K', placement), times(b'k', placement));
    write!(hint, "white has {white}, black {black}")
}

// The first field of a text, cut at form feeds too.
fn placement_of(text: &str) -> &str {
    text.split_ascii_whitespace().next().unwrap_or("")
}

// How many squares a character of a rank stands for, as the faults count.
fn width_of(letter: char) -> u32 {
    match letter.to_digit(10) {
        Some(digit) if digit >= 1 && digit <= 8 => digit,
        _ => 1,
    }
}

// How many squares wide a rank is.
fn rank_width(rank: &str) -> u32 {
    let mut width = 0u32;
    for letter in rank.chars() {
        width = width.saturating_add(width_of(letter));
    }
    width
}

// Whether a character may stand in a placement.
fn may_stand(letter: char) -> bool {
    letter == '/'
        || matches!(letter, '1'..='8')
        || letter.is_ascii() && man_of(letter as u8).is_some()
}

// The first character of a rank that may not stand in a placement, where the rank is 8 squares wide without it.
fn stranger_in(rank: &str) -> Option<char> {
    let letter = rank.chars().find(|letter| !may_stand(*letter))?;
    if rank_width(rank) == 9 {
        Some(letter)
    } else {
        None
    }
}

// Says which rank is too wide or too narrow.
fn write_width(placement: &str, hint: &mut Hint) -> fmt::Result {
    let mut number = 8u8;
    for rank in placement.split('/') {
        let width = rank_width(rank);
        if width != 8 {
            if let Some(letter) = stranger_in(rank) {
                return write!(hint, "{letter:?} in rank {number} is no man and no number");
            }
            let squares = if width == 1 { "square" } else { "squares" };
            let more = if width == 0 {
                "; an empty rank is 8"
            } else {
                ""
            };
            return write!(hint, "rank {number} is {width} {squares} wide, not 8{more}");
        }
        number = number.saturating_sub(1);
    }
    Ok(())
}

// Says how many ranks there are, or which of them is too wide or too narrow.
fn write_ranks(text: &str, hint: &mut Hint) -> fmt::Result {
    let slashes = times(b'/', first_field(text.as_bytes()));
    match slashes {
        7 => write_width(placement_of(text), hint),
        0 if Length::read(text.trim()).is_ok() => {
            write!(hint, "the diagram stands before the length")
        }
        0 => write!(hint, "1 rank; a board has 8"),
        _ => write!(hint, "{} ranks; a board has 8", slashes.saturating_add(1)),
    }
}

// Says which letter of which rank is no man's, or what is meant in another language's letters.
fn write_letter(placement: &str, hint: &mut Hint) -> fmt::Result {
    if let Some(meant) = placement_meant_by(placement) {
        return write!(hint, "in English letters it is {}", meant.as_str());
    }
    let mut number = 8u8;
    for letter in placement.chars() {
        if !may_stand(letter) {
            write!(hint, "{letter:?}")?;
            if !letter.is_ascii() {
                let code = u32::from(letter);
                write!(hint, " (U+{code:04X})")?;
            }
            return write!(hint, " in rank {number}; men are KQRBNP and kqrbnp");
        }
        if letter == '/' {
            number = number.saturating_sub(1);
        }
    }
    Ok(())
}

// The names of the files.
const FILES: &str = "abcdefgh";

// The first pawn of a rank: whose it is, and its file.
fn pawn_in(rank: &str) -> Option<(&'static str, char)> {
    let mut file = 0u32;
    for letter in rank.chars() {
        match letter {
            'P' => return Some(("white", FILES.chars().nth(file as usize)?)),
            'p' => return Some(("black", FILES.chars().nth(file as usize)?)),
            _ => file = file.saturating_add(width_of(letter)),
        }
    }
    None
}

// Says which pawn stands on rank 8, or else on rank 1.
fn write_pawn(placement: &str, hint: &mut Hint) -> fmt::Result {
    if let Some((color, file)) = placement.split('/').next().and_then(pawn_in) {
        return write!(hint, "{color} pawn on {file}8");
    }
    match placement.split('/').nth(7).and_then(pawn_in) {
        Some((color, file)) => write!(hint, "{color} pawn on {file}1"),
        None => Ok(()),
    }
}

/// What is wrong with a text that is refused as a diagram or a position with this fault: the rank and its width, the
/// letter, the numbers of fields, ranks and kings, the pawn, a length in its place; nothing where the fault says all.
pub fn on_diagram(text: &str, fault: FenFault) -> Hint {
    let mut hint = Hint::new();
    let _ = match fault {
        FenFault::Fields => write_fields(text.as_bytes(), &mut hint),
        FenFault::Rank => write_ranks(text, &mut hint),
        FenFault::Letter => write_letter(placement_of(text), &mut hint),
        FenFault::Kings => write_kings(first_field(text.as_bytes()), &mut hint),
        FenFault::PawnRank => write_pawn(placement_of(text), &mut hint),
        _ => Ok(()),
    };
    hint
}
