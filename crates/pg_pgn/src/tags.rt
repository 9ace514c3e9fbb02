//! What tag pairs say.
ghost use Rattle.std.specs.Prelude.{◌≡◌, ◌≤◌, length};
ghost use Rattle.std.specs.List.{prefix_len};
ghost use Rattle.pg_pgn.specs.Tokens.{is_blank, is_name_byte, past_blanks, tag_front, tag_name, tag_value};
ghost use Rattle.pg_pgn.specs.Pgn.{set_up_sign, tag_sign};
ghost use Rattle.pg_pgn.specs.Steps.{IsOfTag};

use crate::signs::Sign;
use crate::tokens::is_blank;

fn blanks_len(text: &[u8]) -> usize
    ensures value { result ≡ prefix_len is_blank text.now }
    ensures fits { result ≤ length text.now }
{
    text.iter().take_while(|b| is_blank(**b)).count()
}

fn past_blanks(text: &[u8]) -> &[u8]
    ensures { result.now ≡ past_blanks text.now }
{
    let (_, rest) = text.split_at(blanks_len(text));
    rest
}

fn is_name_byte(byte: u8) -> bool
    ensures { result ≡ is_name_byte byte }
{
    !(is_blank(byte) || byte == b'"')
}

fn name_len(text: &[u8]) -> usize
    ensures value { result ≡ prefix_len is_name_byte text.now }
    ensures fits { result ≤ length text.now }
{
    text.iter().take_while(|b| is_name_byte(**b)).count()
}

// What stands behind the bracket.
fn tag_front(token: &[u8]) -> &[u8]
    ensures { result.now ≡ tag_front token.now }
{
    match token.split_first() {
        Some((_, more)) => past_blanks(more),
        None => token,
    }
}

/// The name of a tag pair.
#[tactic(auto, unfolding(crate::specs::Tokens::tag_name))]
pub(crate) fn tag_name(token: &[u8]) -> &[u8]
    ensures { result.now ≡ tag_name token.now }
{
    let front = tag_front(token);
    let (name, _) = front.split_at(name_len(front));
    name
}

/// The value of a tag pair, and what stands behind it.
#[tactic(auto, unfolding(crate::specs::Tokens::tag_value))]
pub(crate) fn tag_value(token: &[u8]) -> &[u8]
    ensures { result.now ≡ tag_value token.now }
{
    let front = tag_front(token);
    let (_, rest) = front.split_at(name_len(front));
    past_blanks(rest)
}

// What a tag pair `SetUp` says by its value.
fn set_up_sign(token: &[u8]) -> Sign
    ensures value { result ≡ set_up_sign token.now }
    ensures kind { IsOfTag result }
{
    match tag_value(token) {
        [b'"', b'1', b'"', ..] => Sign::SetUp,
        _ => Sign::Heads,
    }
}

/// What a tag pair says.
pub(crate) fn tag_sign(token: &[u8]) -> Sign
    ensures value { result ≡ tag_sign token.now }
    ensures kind { IsOfTag result }
{
    match tag_name(token) {
        b"FEN" => Sign::Fen,
        b"SetUp" => set_up_sign(token),
        _ => Sign::Heads,
    }
}
