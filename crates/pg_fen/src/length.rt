//! The length of a game.
ghost use Rattle.std.specs.Prelude.{◌≡◌, ℕ, ◌≤◌, ◌↔◌, IsSome, IfSome, IfOk, Ok};
ghost use Rattle.pg_fen.specs.Lengths.{half_of, length_of, length_text};

use crate::fault::LengthFault;
use crate::numbers::{digits_len, number_up_to};
use crate::text::put;
use arrayvec::ArrayString;
use std::marker::Model;

/// The length of a game: a number of plies, 0 to 128. Contracts see it as that number. As text it
/// is counted in moves of two plies, so `18.5` is 37 plies.
#[derive(Clone, Copy, Debug, PartialEq, Eq)]
pub struct Length {
    plies: u8,
}

impl Model for Length {
    ghost Value = { ℕ };

    ghost view = { λ l. l.plies };

    ghost inverse = { λ n. record { plies = n } };

    ghost invariant = { λ l. l.plies ≤ 128 };
}

// The plies that stand after the whole moves: none or one.
fn half(end: &[u8]) -> Option<u32>
    ensures { result ≡ half_of end.now }
{
    match end {
        b"" | b".0" => Some(0),
        b".5" => Some(1),
        _ => None,
    }
}

// The plies that a text spells, where they are at most 128.
#[tactic(auto, unfolding(crate::specs::Lengths::length_of))]
fn read_plies(bytes: &[u8]) -> Result<u8, LengthFault>
    ensures value { result ≡ length_of bytes.now }
    ensures bound { IfOk result (λ plies. plies ≤ 128) }
{
    let (whole, end) = bytes.split_at(digits_len(bytes));
    if whole.is_empty() {
        return Err(LengthFault::Shape);
    }
    let Some(half) = half(end) else {
        return Err(LengthFault::Shape);
    };
    let plies = 2 * number_up_to(whole, 65) + half;
    if plies > 128 {
        return Err(LengthFault::TooLong);
    }
    Ok(plies as u8)
}

impl Length {
    /// The length that a text spells: one or more decimal digits for the moves, then nothing, `.0`
    /// or `.5`. `n` and `n.0` are 2 * n plies, `n.5` is one ply more.
    ///
    /// # Errors
    /// Any other text is `Shape`; a length above 128 plies is `TooLong`, however many digits it has.
    pub fn read(text: &str) -> Result<Length, LengthFault>
        ensures { result ≡ length_of text.now }
    {
        match read_plies(text.as_bytes()) {
            Ok(plies) => Ok(Length { plies }),
            Err(fault) => Err(fault),
        }
    }

    /// The length of `plies` plies; none above 128.
    pub fn from_plies(plies: u8) -> Option<Length>
        ensures valid { IsSome result ↔ (plies ≤ 128) }
        ensures value { IfSome result (λ length. length ≡ plies) }
    {
        if plies <= 128 {
            Some(Length { plies })
        } else {
            None
        }
    }

    /// The number of plies, 0 to 128.
    pub fn plies(self) -> u8
        ensures value { result ≡ self }
        ensures bound { self ≤ 128 }
    {
        self.plies
    }

    /// The text of the length: the whole moves with no leading zero, then `.0` or `.5`. It reads as
    /// this length, and no other length is written so.
    pub fn write(self) -> ArrayString<4>
        ensures text { result.bytes ≡ length_text self }
        ensures read_again { length_of result.bytes ≡ Ok self }
        ensures alone { (other : ℕ) → other ≤ 128 → length_text other ≡ result.bytes → other ≡ self }
    {
        let moves = self.plies / 2;
        let mut text = ArrayString::new();
        if moves >= 10 {
            put(&mut text, b'0' + moves / 10);
        }
        put(&mut text, b'0' + moves % 10);
        put(&mut text, b'.');
        put(&mut text, if self.plies % 2 == 0 { b'0' } else { b'5' });
        text
    }
}
