//! Words in the letters of a language, as they are written in English.
ghost use Rattle.std.specs.Prelude.{◌≡◌, ◌++◌, OnOk, string_bytes, ◌<◌};
ghost use Rattle.pg_pgn.specs.Letters.{is_man, translated, letter, figurine};
ghost use Rattle.pg_pgn.specs.Letters.{dash, behind_226, behind_195, written, english};

use std::alloc::AllocError;

/// The language whose letters name the men.
#[derive(Clone, Copy, Debug, PartialEq, Eq)]
pub enum Letters {
    English,
    German,
    French,
    Dutch,
    Spanish,
    Italian,
}

fn is_man(byte: u8) -> bool
    ensures { result ≡ is_man byte }
{
    matches!(byte, b'K' | b'Q' | b'R' | b'B' | b'N' | b'S')
}

// The English letter of a man, by the letters of king, queen, rook, bishop and knight.
fn translated(king: u8, queen: u8, rook: u8, bishop: u8, knight: u8, byte: u8) -> u8
    ensures { result ≡ translated king queen rook bishop knight byte }
{
    if byte == king {
        b'K'
    } else if byte == queen {
        b'Q'
    } else if byte == rook {
        b'R'
    } else if byte == bishop {
        b'B'
    } else if byte == knight {
        b'N'
    } else if is_man(byte) {
        b'_'
    } else {
        byte
    }
}

fn letter(letters: Letters, byte: u8) -> u8
    requires { byte < 128 }
    ensures value { result ≡ letter letters byte }
    ensures ascii { result < 128 }
{
    match letters {
        Letters::English => byte,
        Letters::German => translated(b'K', b'D', b'T', b'L', b'S', byte),
        Letters::French => translated(b'R', b'D', b'T', b'F', b'C', byte),
        Letters::Dutch => translated(b'K', b'D', b'T', b'L', b'P', byte),
        Letters::Spanish => translated(b'R', b'D', b'T', b'A', b'C', byte),
        Letters::Italian => translated(b'R', b'D', b'T', b'A', b'C', byte),
    }
}

fn figurine(byte: u8) -> &'static str
    ensures { result.now ≡ figurine byte }
{
    match byte {
        148 | 154 => "K",
        149 | 155 => "Q",
        150 | 156 => "R",
        151 | 157 => "B",
        152 | 158 => "N",
        153 | 159 => "",
        _ => "_",
    }
}

fn dash(byte: u8) -> &'static str
    ensures { result.now ≡ dash byte }
{
    if byte == 147 { "-" } else { "_" }
}

fn behind_226(more: &[u8]) -> &'static str
    ensures { result.now ≡ behind_226 more.now }
{
    match more {
        [153, byte, ..] => figurine(*byte),
        [128, byte, ..] => dash(*byte),
        _ => "_",
    }
}

fn behind_195(more: &[u8]) -> &'static str
    ensures { result.now ≡ behind_195 more.now }
{
    match more {
        [151, ..] => "x",
        _ => "_",
    }
}

// Writes what is written for the character that a byte begins, where these stand behind it.
fn write_character(
    text: &mut String,
    letters: Letters,
    byte: u8,
    more: &[u8],
) -> Result<(), AllocError>
    ensures { OnOk result (string_bytes text.new ≡ string_bytes text.old ++ written letters byte more.now) }
{
    match byte {
        b':' => text.push_str("x"),
        b'o' => text.push_str("O"),
        0..=127 => text.push(char::from(letter(letters, byte))),
        128..=191 => Ok(()),
        195 => text.push_str(behind_195(more)),
        226 => text.push_str(behind_226(more)),
        _ => text.push_str("_"),
    }
}

/// Writes a word in English into a text that is emptied before.
///
/// # Errors
/// Where memory is refused.
#[tactic(auto, unfolding(crate::specs::Letters::english))]
pub(crate) fn write_english(
    text: &mut String,
    letters: Letters,
    word: &[u8],
) -> Result<(), AllocError>
    ensures { OnOk result (string_bytes text.new ≡ english letters word.now) }
{
    text.clear();
    let mut rest = word;
    while let Some((byte, more)) = rest.split_first() {
        write_character(text, letters, *byte, more)?;
        rest = more;
    }
    Ok(())
}
