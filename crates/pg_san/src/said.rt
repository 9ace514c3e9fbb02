//! What a whole text says: castling or a core, and the ends behind it.
ghost use Rattle.std.specs.Prelude.{◌≡◌, reverse, MatchOption, Some, None};
ghost use Rattle.pg_san.specs.Said.{castling_of, form_of, is_mark, without_mark, without_plus, without_check, byte_in};
ghost use Rattle.pg_san.specs.Said.{ep_in, dots_in, passing_in, said_of};

use crate::cores::{Core, core_of, last_off};
use pg_position::Wing;

/// What a text says without its ends.
#[derive(Clone, Copy, Debug, PartialEq, Eq)]
pub enum Form {
    Castles(Wing),
    Moves(Core),
}

/// What a text says of a move.
#[derive(Clone, Copy, Debug, PartialEq, Eq)]
pub struct Said {
    pub form: Form,
    /// Whether it says that the move captures en passant.
    pub passing: bool,
}

fn castling_of(text: &[u8]) -> Option<Wing>
    ensures { result ≡ castling_of text.now }
{
    match text {
        b"O-O" | b"0-0" => Some(Wing::KingSide),
        b"O-O-O" | b"0-0-0" => Some(Wing::QueenSide),
        _ => None,
    }
}

fn form_of(text: &[u8]) -> Option<Form>
    ensures { result ≡ form_of text.now }
{
    match castling_of(text) {
        Some(wing) => Some(Form::Castles(wing)),
        None => match core_of(text) {
            Some(core) => Some(Form::Moves(core)),
            None => None,
        },
    }
}

fn is_mark(byte: u8) -> bool
    ensures { result ≡ is_mark byte }
{
    byte == b'!' || byte == b'?'
}

fn without_mark(text: &[u8]) -> &[u8]
    ensures { reverse result.now ≡ without_mark (reverse text.now) }
{
    match last_off(text) {
        Some((front, mark)) if is_mark(mark) => front,
        _ => text,
    }
}

fn without_plus(text: &[u8]) -> &[u8]
    ensures { reverse result.now ≡ without_plus (reverse text.now) }
{
    match last_off(text) {
        Some((front, b'+')) => front,
        _ => text,
    }
}

fn without_check(text: &[u8]) -> &[u8]
    ensures { reverse result.now ≡ without_check (reverse text.now) }
{
    match last_off(text) {
        Some((front, b'#')) => front,
        Some((front, b'+')) => without_plus(front),
        _ => text,
    }
}

// What stands before this byte, where it is the last.
fn byte_off(text: &[u8], byte: u8) -> Option<&[u8]>
    ensures { MatchOption result (byte_in byte (reverse text.now) ≡ None)
        (λ s. byte_in byte (reverse text.now) ≡ Some (reverse s.now)) }
{
    match last_off(text) {
        Some((front, last)) if last == byte => Some(front),
        _ => None,
    }
}

// What stands before `ep`.
fn ep_off(text: &[u8]) -> Option<&[u8]>
    ensures { MatchOption result (ep_in (reverse text.now) ≡ None)
        (λ s. ep_in (reverse text.now) ≡ Some (reverse s.now)) }
{
    let text = byte_off(text, b'p')?;
    byte_off(text, b'e')
}

// What stands before `e.p.`.
fn dots_off(text: &[u8]) -> Option<&[u8]>
    ensures { MatchOption result (dots_in (reverse text.now) ≡ None)
        (λ s. dots_in (reverse text.now) ≡ Some (reverse s.now)) }
{
    let text = byte_off(text, b'.')?;
    let text = byte_off(text, b'p')?;
    let text = byte_off(text, b'.')?;
    byte_off(text, b'e')
}

// Whether `ep` or `e.p.` is the end, and what stands before it.
fn passing_off(text: &[u8]) -> (bool, &[u8])
    ensures { passing_in (reverse text.now) ≡ (result.0, reverse result.1.now) }
{
    match ep_off(text) {
        Some(front) => (true, front),
        None => match dots_off(text) {
            Some(front) => (true, front),
            None => (false, text),
        },
    }
}

/// What a text says of a move; none where it is spelled as no move is.
#[tactic(auto, unfolding(crate::specs::Said::said_of))]
pub fn said_of(text: &[u8]) -> Option<Said>
    ensures { result ≡ said_of text.now }
{
    let text = without_check(without_mark(without_mark(text)));
    let (passing, text) = passing_off(text);
    let form = form_of(text)?;
    Some(Said { form, passing })
}
