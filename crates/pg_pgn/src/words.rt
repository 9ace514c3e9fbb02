//! What the words of a movetext say.
ghost use Rattle.std.specs.Prelude.{◌≡◌, ◌≤◌, length, OnOk, string_bytes};
ghost use Rattle.std.specs.List.{prefix_len};
ghost use Rattle.pg_san.specs.GameText.{digits_len, dots_len, is_dot};
ghost use Rattle.pg_pgn.specs.Pgn.{without_number, said, is_result, is_mark, is_idle, word_sign};
ghost use Rattle.pg_pgn.specs.Steps.{IsOfWord};

use crate::letters::{Letters, write_english};
use crate::signs::Sign;
use arrayvec::ArrayString;
use std::alloc::AllocError;

fn digits_len(word: &[u8]) -> usize
    ensures value { result ≡ digits_len word.now }
    ensures fits { result ≤ length word.now }
{
    word.iter().take_while(|b| b.is_ascii_digit()).count()
}

fn dot_len(text: &[u8]) -> usize
    ensures value { result ≡ prefix_len is_dot text.now }
    ensures fits { result ≤ length text.now }
{
    text.iter().take_while(|b| **b == b'.').count()
}

// The word without a move number at its front.
#[tactic(auto, unfolding(crate::specs::Pgn::without_number))]
fn without_number(word: &[u8]) -> &[u8]
    ensures { result.now ≡ without_number word.now }
{
    let (_, rest) = word.split_at(digits_len(word));
    let dots = dot_len(rest);
    let (_, behind) = rest.split_at(dots);
    if dots > 0 || behind.is_empty() {
        behind
    } else {
        word
    }
}

/// Writes what a word says, in English and without a move number, into a text that is emptied before.
///
/// # Errors
/// Where memory is refused.
pub(crate) fn write_said(text: &mut String, letters: Letters, word: &[u8]) -> Result<(), AllocError>
    ensures { OnOk result (string_bytes text.new ≡ said letters word.now) }
{
    write_english(text, letters, without_number(word))
}

fn is_result(text: &[u8]) -> bool
    ensures { result ≡ is_result text.now }
{
    text == b"1-0".as_slice() || text == b"0-1".as_slice() || text == b"1/2-1/2".as_slice()
}

fn is_mark(byte: u8) -> bool
    ensures { result ≡ is_mark byte }
{
    matches!(byte, b'!' | b'?' | b'+' | b'#')
}

fn marks_len(text: &[u8]) -> usize
    ensures value { result ≡ prefix_len is_mark text.now }
    ensures fits { result ≤ length text.now }
{
    text.iter().take_while(|b| is_mark(**b)).count()
}

fn is_idle(text: &[u8]) -> bool
    ensures { result ≡ is_idle text.now }
{
    marks_len(text) == text.len() || matches!(text, b"e.p." | b"ep")
}

/// What a word says.
pub(crate) fn word_sign(text: &[u8]) -> Sign
    ensures value { result ≡ word_sign text.now }
    ensures kind { IsOfWord result }
{
    if is_result(text) {
        Sign::Result
    } else if is_idle(text) {
        Sign::Nothing
    } else {
        Sign::Moves
    }
}

/// A word as a fault shows it: its front, where it is long.
pub(crate) fn shown(word: &[u8]) -> ArrayString<24> {
    let mut text = ArrayString::new();
    let shown = match std::str::from_utf8(word) {
        Ok(shown) => shown,
        Err(_) => "what stands there",
    };
    for character in shown.chars() {
        if text.try_push(character).is_err() {
            return text;
        }
    }
    text
}
