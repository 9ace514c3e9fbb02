//! The parts of the lines that the page's script reads.
ghost use Rattle.std.specs.Prelude.{◌≡◌, ◌<◌, ◌≤◌, ◌++◌, length, IsTrue};
ghost use Rattle.std.specs.Fmt.{decimal};
ghost use Rattle.pg_certificate.specs.Pushing.{Adds, MayPush, Pushes};
ghost use Rattle.pg_position.specs.Step.{Legal};
ghost use Rattle.pg_page.specs.Lines.{letter_at, IsMoveText};
ghost use Rattle.pg_page.specs.Escaping.{has_meaning, entity_of, written_as, escaped};

use arrayvec::ArrayString;
use pg_board::Square;
use pg_certificate::{Refused, Sink};
use pg_fen::text::{digits, put};
use pg_position::{Move, Position};
use pg_san::write_with;

// A letter for each square, from a1 on.
static LETTERS: [u8; 64] = *b"ABCDEFGHIJKLMNOPQRSTUVWXYZabcdefghijklmnopqrstuvwxyz0123456789-_";

// A move: the letters of its squares, and its text.
pub(crate) type MoveText = ArrayString<12>;

// The letter of a square.
#[tactic(auto, using(crate::proofs::LetterLemmas::letter_is, crate::proofs::LetterLemmas::letter_is_ascii))]
fn letter_of(square: Square) -> u8
    ensures letter { result ≡ letter_at square }
    ensures ascii { result < 128 }
{
    LETTERS[usize::from(square.index())]
}

// A legal move, with the position that it leads to: the letters of its squares, and its text. Byte by byte, since a
// formatted write costs some fifty instructions for each part, and a page has a line for most moves.
pub(crate) fn move_text(position: &Position, m: &Move, next: &Position) -> MoveText
    requires { Legal position.now m.now next.now }
    ensures text { IsMoveText position.now m.now result.bytes }
    ensures short { length result.bytes ≤ 10 }
{
    let san = write_with(position, *m, next);
    // A fact for the proof: it has at most eight characters.
    san.len();
    let mut text = MoveText::new();
    put(&mut text, letter_of(m.from));
    put(&mut text, letter_of(m.to));
    text.push_str(san.as_str());
    text
}

// Appends a number behind a mark, by one push.
pub(crate) fn write_number<W: Sink>(mark: &str, number: u64, out: &mut W) -> Result<(), Refused>
    requires short { length mark.now ≤ 44 }
    ensures { Pushes W.held W.has_failed (Adds (mark.now ++ decimal number)) out.old out.new result }
{
    let digits = digits(number as usize);
    // A fact for the proof: they are at most twenty.
    digits.len();
    let mut text: ArrayString<64> = ArrayString::new();
    text.push_str(mark);
    text.push_str(digits.as_str());
    out.push(text.as_str().as_bytes())
}

// Whether a character of a text has a meaning in HTML.
fn has_meaning(byte: u8) -> bool
    ensures { result ≡ has_meaning byte }
{
    byte == b'&' || byte == b'<' || byte == b'>' || byte == b'"'
}

// What is written for a character that has a meaning in HTML.
fn entity(byte: u8) -> &'static str
    ensures { result.now ≡ entity_of byte }
{
    if byte == b'&' {
        "&amp;"
    } else if byte == b'<' {
        "&lt;"
    } else if byte == b'>' {
        "&gt;"
    } else {
        "&quot;"
    }
}

// Whether no character of a text has a meaning in HTML.
fn is_plain(bytes: &[u8]) -> bool
    ensures { IsTrue result → escaped bytes.now ≡ bytes.now }
{
    for byte in bytes {
        if has_meaning(*byte) {
            return false;
        }
    }
    true
}

// Appends a character, or what is written for it.
fn write_byte<W: Sink>(byte: u8, out: &mut W) -> Result<(), Refused>
    ensures { Pushes W.held W.has_failed (Adds (written_as byte)) out.old out.new result }
{
    if has_meaning(byte) {
        out.push(entity(byte).as_bytes())
    } else {
        out.push(&[byte])
    }
}

// Appends the characters of a text one by one.
fn write_bytes<W: Sink>(bytes: &[u8], out: &mut W) -> Result<(), Refused>
    ensures { MayPush W.held W.has_failed (Adds (escaped bytes.now)) out.old out.new result }
{
    for byte in bytes {
        write_byte(*byte, out)?;
    }
    Ok(())
}

// Appends a text, with what has a meaning in HTML written as an entity. A text that has none, as most, goes out by one
// call: a push of one byte costs some thirty instructions, and a sink that gathers can spare them. The call makes the
// pieces of such pushes, since what stands in a file after a write that fails is not to hang on what a text is made of.
pub(crate) fn write_escaped<W: Sink>(text: &str, out: &mut W) -> Result<(), Refused>
    ensures { MayPush W.held W.has_failed (Adds (escaped text.now)) out.old out.new result }
{
    let bytes = text.as_bytes();
    if !is_plain(bytes) {
        return write_bytes(bytes, out);
    }
    out.push_each(bytes)
}

// Appends a text between two others.
pub(crate) fn write_around<W: Sink>(
    before: &str,
    text: &str,
    behind: &str,
    out: &mut W,
) -> Result<(), Refused>
    ensures { Pushes W.held W.has_failed (Adds (before.now ++ (text.now ++ behind.now))) out.old out.new result }
{
    out.push(before.as_bytes())?;
    out.push(text.as_bytes())?;
    out.push(behind.as_bytes())
}
