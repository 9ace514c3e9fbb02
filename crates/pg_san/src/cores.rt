//! The core of a move's text: what it says of the move, castling apart.
ghost use Rattle.std.specs.Prelude.{◌≡◌, ℕ, ◌<◌, Option, [], ◌∷◌, reverse, MatchOption, None, Some};
ghost use Rattle.pg_san.specs.CoreText.{is_file, is_rank, file_in, rank_in, sep_in, square_in, promotion_in};
ghost use Rattle.pg_san.specs.Spelling.{piece_of, promoted_of};
ghost use Rattle.pg_san.specs.CoreText.{without_equals, parts_in, plain_core, core_of};
ghost use Rattle.pg_san.specs.Grammar.{is_cross, piece_core};

use pg_board::{Kind, Square};

/// What stands before the target: nothing, `x` or `-`.
#[derive(Clone, Copy, Debug, PartialEq, Eq)]
pub enum Sep {
    Nothing,
    Cross,
    Hyphen,
}

/// What a text says of a move that is not named as castling. Of what is `None` it says nothing, but
/// for the promotion, where `None` says that there is none. Files and ranks are numbers 1 to 8.
#[derive(Clone, Copy, Debug, PartialEq, Eq)]
pub struct Core {
    /// The kind of the man that moves.
    pub kind: Option<Kind>,
    /// The file that it leaves.
    pub file: Option<u8>,
    /// The rank that it leaves.
    pub rank: Option<u8>,
    /// The square that it comes to.
    pub target: Square,
    /// Whether the text says that it captures.
    pub takes: bool,
    /// What a pawn becomes.
    pub promotion: Option<Kind>,
}

/// A source and a target as they are spelled.
#[derive(Clone, Copy, Debug)]
pub struct Parts {
    pub file: Option<u8>,
    pub rank: Option<u8>,
    pub sep: Sep,
    pub target: Square,
}

/// The last byte of a text, and what stands before it.
pub fn last_off(text: &[u8]) -> Option<(&[u8], u8)>
    ensures { MatchOption result (reverse text.now ≡ []) (λ p. reverse text.now ≡ p.1 ∷ reverse p.0.now) }
{
    let (last, front) = text.split_last()?;
    Some((front, *last))
}

fn piece_of(letter: u8) -> Option<Kind>
    ensures { result ≡ piece_of letter }
{
    match letter {
        b'K' => Some(Kind::King),
        b'Q' => Some(Kind::Queen),
        b'R' => Some(Kind::Rook),
        b'B' => Some(Kind::Bishop),
        b'N' | b'S' => Some(Kind::Knight),
        _ => None,
    }
}

fn promoted_of(letter: u8) -> Option<Kind>
    ensures { result ≡ promoted_of letter }
{
    match letter.to_ascii_uppercase() {
        b'K' => None,
        letter => piece_of(letter),
    }
}

fn is_file(byte: u8) -> bool
    ensures { result ≡ is_file byte }
{
    byte >= b'a' && byte <= b'h'
}

fn is_rank(byte: u8) -> bool
    ensures { result ≡ is_rank byte }
{
    byte >= b'1' && byte <= b'8'
}

// The file at the end of a text, if one stands there, and what stands before it.
fn file_off(text: &[u8]) -> (Option<u8>, &[u8])
    ensures { file_in (reverse text.now) ≡ (result.0, reverse result.1.now) }
{
    match last_off(text) {
        Some((front, file)) if is_file(file) => (Some(file - b'a' + 1), front),
        _ => (None, text),
    }
}

fn rank_off(text: &[u8]) -> (Option<u8>, &[u8])
    ensures { rank_in (reverse text.now) ≡ (result.0, reverse result.1.now) }
{
    match last_off(text) {
        Some((front, rank)) if is_rank(rank) => (Some(rank - b'1' + 1), front),
        _ => (None, text),
    }
}

fn square_off(text: &[u8]) -> Option<(&[u8], Square)>
    ensures { MatchOption result (square_in (reverse text.now) ≡ None)
        (λ s. square_in (reverse text.now) ≡ Some (s.1, reverse s.0.now)) }
{
    let (text, rank) = last_off(text)?;
    let (text, file) = last_off(text)?;
    if is_file(file) && is_rank(rank) {
        Some((text, Square::at((rank - b'1') * 8 + (file - b'a'))))
    } else {
        None
    }
}

fn sep_off(text: &[u8]) -> (Sep, &[u8])
    ensures { sep_in (reverse text.now) ≡ (result.0, reverse result.1.now) }
{
    match last_off(text) {
        Some((front, b'x')) => (Sep::Cross, front),
        Some((front, b'-')) => (Sep::Hyphen, front),
        _ => (Sep::Nothing, text),
    }
}

fn without_equals(text: &[u8]) -> &[u8]
    ensures { reverse result.now ≡ without_equals (reverse text.now) }
{
    match last_off(text) {
        Some((front, b'=')) => front,
        _ => text,
    }
}

fn promotion_off(text: &[u8]) -> (Option<Kind>, &[u8])
    ensures { promotion_in (reverse text.now) ≡ (result.0, reverse result.1.now) }
{
    let Some((front, letter)) = last_off(text) else {
        return (None, text);
    };
    match promoted_of(letter) {
        Some(kind) => (Some(kind), without_equals(front)),
        None => (None, text),
    }
}

// The source and the target that make up the whole text.
#[tactic(auto, unfolding(crate::specs::CoreText::parts_in))]
fn parts_of(text: &[u8]) -> Option<Parts>
    ensures { result ≡ parts_in (reverse text.now) }
{
    let Some((text, target)) = square_off(text) else {
        return None;
    };
    let (sep, text) = sep_off(text);
    let (rank, text) = rank_off(text);
    let (file, text) = file_off(text);
    if text.is_empty() {
        Some(Parts {
            file,
            rank,
            sep,
            target,
        })
    } else {
        None
    }
}

fn is_cross(sep: Sep) -> bool
    ensures { result ≡ is_cross sep }
{
    match sep {
        Sep::Cross => true,
        Sep::Nothing | Sep::Hyphen => false,
    }
}

fn piece_core(kind: Kind, parts: Parts) -> Core
    ensures { result ≡ piece_core kind parts }
{
    Core {
        kind: Some(kind),
        file: parts.file,
        rank: parts.rank,
        target: parts.target,
        takes: is_cross(parts.sep),
        promotion: None,
    }
}

fn plain_core(promotion: Option<Kind>, parts: Parts) -> Option<Core>
    ensures { result ≡ plain_core promotion parts }
{
    let (kind, file) = match (parts.file, parts.rank, parts.sep) {
        (None, None, Sep::Nothing) => (Some(Kind::Pawn), parts.target.file()),
        (Some(file), None, Sep::Nothing | Sep::Cross) => (Some(Kind::Pawn), file),
        (Some(file), Some(_), _) => (None, file),
        _ => return None,
    };
    Some(Core {
        kind,
        file: Some(file),
        rank: parts.rank,
        target: parts.target,
        takes: is_cross(parts.sep),
        promotion,
    })
}

/// What the text says of a move, castling apart; none where it is spelled as no move is.
#[tactic(auto, unfolding(crate::specs::CoreText::core_of))]
pub fn core_of(text: &[u8]) -> Option<Core>
    ensures { result ≡ core_of text.now }
{
    let (letter, rest) = text.split_first()?;
    match piece_of(*letter) {
        Some(kind) => Some(piece_core(kind, parts_of(rest)?)),
        None => {
            let (promotion, rest) = promotion_off(text);
            plain_core(promotion, parts_of(rest)?)
        }
    }
}
