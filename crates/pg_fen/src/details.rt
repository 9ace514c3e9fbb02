//! The five fields behind the placement: side to move, castling rights, passed square and the two
//! move numbers.
ghost use Rattle.std.specs.Prelude.{◌≡◌, ◌≤◌, IsTrue};
ghost use Rattle.std.specs.List.{list_all};
ghost use Rattle.std.specs.Str.{all_ascii_digits};
ghost use Rattle.std.specs.Char.{is_ascii_digit};
ghost use Rattle.pg_fen.specs.DetailText.{side_of, is_right, count_letter, no_letter_twice, are_rights, rights_in};
ghost use Rattle.pg_fen.specs.DetailText.{rights_of, passed_of, is_number, number_of, details_of};

use crate::fault::FenFault;
use crate::fields::DetailFields;
use crate::numbers::number_up_to;
use pg_board::{Color, Square};
use pg_position::Rights;

/// What the five fields behind the placement say (the PGN standard, sections 16.1.3.2 to 16.1.3.6).
#[derive(Debug, Clone, Copy, PartialEq, Eq)]
pub struct Details {
    /// The side to move.
    pub side: Color,
    /// The castling rights.
    pub rights: Rights,
    /// The square that a pawn crossed by a two-square advance, on rank 3 or 6; or none.
    pub passed: Option<Square>,
    /// How many plies ago a pawn moved or a man was taken.
    pub half: u16,
    /// The number of the full move.
    pub full: u16,
}

fn side_of(text: &[u8]) -> Option<Color>
    ensures { result ≡ side_of text.now }
{
    match text {
        b"w" => Some(Color::White),
        b"b" => Some(Color::Black),
        _ => None,
    }
}

fn is_right(byte: u8) -> bool
    ensures { result ≡ is_right byte }
{
    matches!(byte, b'K' | b'Q' | b'k' | b'q')
}

fn count_letter(letter: u8, text: &[u8]) -> usize
    ensures { result ≡ count_letter letter text.now }
{
    text.iter().filter(|b| **b == letter).count()
}

fn no_letter_twice(text: &[u8]) -> bool
    ensures { result ≡ no_letter_twice text.now }
{
    count_letter(b'K', text) <= 1
        && count_letter(b'Q', text) <= 1
        && count_letter(b'k', text) <= 1
        && count_letter(b'q', text) <= 1
}

fn all_are_rights(text: &[u8]) -> bool
    ensures { result ≡ list_all is_right text.now }
{
    text.iter().all(|b| is_right(*b))
}

fn are_rights(text: &[u8]) -> bool
    ensures { result ≡ are_rights text.now }
{
    !text.is_empty() && all_are_rights(text) && no_letter_twice(text)
}

fn rights_in(text: &[u8]) -> Rights
    ensures { result ≡ rights_in text.now }
{
    Rights {
        white_king: count_letter(b'K', text) == 1,
        white_queen: count_letter(b'Q', text) == 1,
        black_king: count_letter(b'k', text) == 1,
        black_queen: count_letter(b'q', text) == 1,
    }
}

fn rights_of(text: &[u8]) -> Option<Rights>
    ensures { result ≡ rights_of text.now }
{
    match text {
        b"-" => Some(Rights {
            white_king: false,
            white_queen: false,
            black_king: false,
            black_queen: false,
        }),
        _ => {
            if are_rights(text) {
                Some(rights_in(text))
            } else {
                None
            }
        }
    }
}

fn passed_of(text: &[u8]) -> Option<Option<Square>>
    ensures { result ≡ passed_of text.now }
{
    match text {
        [b'-'] => Some(None),
        [file @ b'a'..=b'h', rank @ (b'3' | b'6')] => {
            Some(Some(Square::at(8 * (*rank - b'1') + (*file - b'a'))))
        }
        _ => None,
    }
}

fn all_digits(text: &[u8]) -> bool
    ensures { result ≡ list_all is_ascii_digit text.now }
{
    text.iter().all(|b| b.is_ascii_digit())
}

fn is_number(text: &[u8]) -> bool
    ensures { result ≡ is_number text.now }
{
    !text.is_empty() && all_digits(text) && number_up_to(text, 65536) <= 65535
}

fn number_of(text: &[u8]) -> Option<u16>
    ensures { result ≡ number_of text.now }
{
    if is_number(text) {
        Some(number_up_to(text, 65535) as u16)
    } else {
        None
    }
}

/// What the five fields say, or the fault of the first that is not well formed.
#[tactic(auto, unfolding(crate::specs::DetailText::details_of))]
pub fn details_of(texts: &DetailFields<'_>) -> Result<Details, FenFault>
    ensures { result
        ≡ details_of texts.now.side.now texts.now.rights.now texts.now.passed.now texts.now.half.now
        texts.now.full.now }
{
    let Some(side) = side_of(texts.side) else {
        return Err(FenFault::Side);
    };
    let Some(rights) = rights_of(texts.rights) else {
        return Err(FenFault::Rights);
    };
    let Some(passed) = passed_of(texts.passed) else {
        return Err(FenFault::EnPassant);
    };
    let Some(half) = number_of(texts.half) else {
        return Err(FenFault::Number);
    };
    let Some(full) = number_of(texts.full) else {
        return Err(FenFault::Number);
    };
    Ok(Details {
        side,
        rights,
        passed,
        half,
        full,
    })
}
