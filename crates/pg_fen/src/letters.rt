//! The letters of men.
ghost use Rattle.std.specs.Prelude.{◌≡◌, ◌<◌};
ghost use Rattle.pg_fen.specs.Letters.{kind_of_letter, man_of, letter_of, letter_of_kind};

use pg_board::{Color, Kind, Man};

fn kind_of(letter: u8) -> Option<Kind>
    ensures { result ≡ kind_of_letter letter }
{
    match letter {
        b'P' => Some(Kind::Pawn),
        b'N' => Some(Kind::Knight),
        b'B' => Some(Kind::Bishop),
        b'R' => Some(Kind::Rook),
        b'Q' => Some(Kind::Queen),
        b'K' => Some(Kind::King),
        _ => None,
    }
}

/// The man that a letter stands for: a white man where it is in upper case.
pub fn man_of(letter: u8) -> Option<Man>
    ensures { result ≡ man_of letter }
{
    let kind = kind_of(letter.to_ascii_uppercase())?;
    let color = if letter < b'a' {
        Color::White
    } else {
        Color::Black
    };
    Some(Man::new(color, kind))
}

fn letter_of_kind(kind: Kind) -> u8
    ensures value { result ≡ letter_of_kind kind }
    ensures ascii { result < 128 }
{
    match kind {
        Kind::Pawn => b'P',
        Kind::Knight => b'N',
        Kind::Bishop => b'B',
        Kind::Rook => b'R',
        Kind::Queen => b'Q',
        Kind::King => b'K',
    }
}

/// The letter of a man: upper case for White, lower case for Black.
pub fn letter_of(man: Man) -> u8
    ensures value { result ≡ letter_of man }
    ensures ascii { result < 128 }
{
    let letter = letter_of_kind(man.kind);
    match man.color {
        Color::White => letter,
        Color::Black => letter.to_ascii_lowercase(),
    }
}
