//! Reading a move.
ghost use Rattle.std.specs.Prelude.{◌+◌, MatchOption};
ghost use Rattle.std.specs.Bool.{OnTrue, OnFalse};
ghost use Rattle.pg_san.specs.declared.reading.Found.{Found};
ghost use Rattle.pg_san.specs.Matching.{IsReading};
ghost use Rattle.pg_san.specs.inner.Walk.{HoldsSources, IsOnlyFrom, NoneLeaves, IsFoundAt, NoneFits, IsFirstFit};
ghost use Rattle.pg_san.specs.inner.Walk.{IsSaidReading, IsTextReading};

use crate::fault::SanFault;
use crate::matching::fits;
use crate::said::{Form, Said, said_of};
use crate::sources::sources_of;
use pg_board::{Square, SquareSet};
use pg_position::{Move, Position, king_target};

/// A legal move that was found, and the position that it leads to.
#[derive(Clone, Copy)]
pub(crate) struct Found {
    pub(crate) m: Move,
    pub(crate) next: Position,
}

// The only move that leaves this square and may be as the text says: but for that square the text says
// all of it.
fn move_from(position: &Position, said: &Said, from: Square) -> Move
    ensures { IsOnlyFrom position.now said.now from result }
{
    match said.form {
        Form::Castles(wing) => Move {
            from,
            to: king_target(position.side(), wing),
            promotion: None,
        },
        Form::Moves(core) => Move {
            from,
            to: core.target,
            promotion: core.promotion,
        },
    }
}

// The legal move that leaves this square and is as the text says.
fn fit_from(position: &Position, said: &Said, from: Square) -> Option<Found>
    ensures { MatchOption result (NoneLeaves position.now said.now from)
        (λ f. IsFoundAt position.now said.now from f) }
{
    let m = move_from(position, said, from);
    match position.play(m) {
        Ok(next) => {
            if fits(position, said, &m) {
                Some(Found { m, next })
            } else {
                None
            }
        }
        Err(_) => None,
    }
}

// The first legal move that is as the text says, of those that leave a square from this index on.
fn next_fit(position: &Position, said: &Said, sources: SquareSet, start: u8) -> Option<Found>
    requires { HoldsSources position.now said.now sources }
    ensures { MatchOption result (NoneFits position.now said.now start)
        (λ f. IsFirstFit position.now said.now start f) }
{
    let mut at = start;
    while let Some(from) = sources.first_from(at) {
        if let Some(found) = fit_from(position, said, from) {
            return Some(found);
        }
        at = from.index() + 1;
    }
    None
}

// Whether a legal move that leaves a later square is as the text says, too.
fn fits_later(position: &Position, said: &Said, sources: SquareSet, first: &Move) -> bool
    requires { HoldsSources position.now said.now sources }
    ensures yes { OnTrue result ((f : Found) × IsFirstFit position.now said.now (first.now.from + 1) f) }
    ensures no { OnFalse result (NoneFits position.now said.now (first.now.from + 1)) }
{
    match next_fit(position, said, sources, first.from.index() + 1) {
        Some(_) => true,
        None => false,
    }
}

// The one legal move that is as the text says, and where it leads.
fn read_said(position: &Position, said: &Said) -> Result<Found, SanFault>
    ensures { IsSaidReading position.now said.now result }
{
    let sources = sources_of(position, said);
    match next_fit(position, said, sources, 0) {
        Some(found) => {
            if fits_later(position, said, sources, &found.m) {
                Err(SanFault::Ambiguous)
            } else {
                Ok(found)
            }
        }
        None => Err(SanFault::NoSuchMove),
    }
}

/// The one legal move that the bytes of a text name, as `read` has it, and the position that it leads
/// to. The text says all of a move but the square that it leaves, so only the men that it may mean are
/// tried.
pub(crate) fn read_step(position: &Position, text: &[u8]) -> Result<Found, SanFault>
    ensures { IsTextReading position.now text.now result }
{
    match said_of(text) {
        Some(said) => read_said(position, &said),
        None => Err(SanFault::Shape),
    }
}

/// The one legal move that a text names (the PGN standard, section 8.2.3, read leniently). The text
/// is one of these, and then three ends that may be missing: `ep` or `e.p.`; `+`, `++` or `#`; one or
/// two of `!` and `?`.
///
/// - `O-O`, `O-O-O`, or the same with zeros: castling;
/// - a letter of `KQRBN`, or `S` for a knight; a file, a rank, and `x` or `-`, each of which may be
///   missing; the target: that man;
/// - a file or a file and `x`, which may be missing; the target; a promotion or none: a pawn, on the
///   target's file where no file is given;
/// - the source square; `x`, `-` or neither; the target; a promotion or none: any man.
///
/// A promotion is one letter of `QRBNS` in either case, with a `=` before it or not. A move is as
/// the text says where its man, source, target and promotion are those given, castling being the
/// king's move of two squares; with `x` it captures, with `ep` or `e.p.` en passant. Nothing is made
/// of check signs and marks.
/// Takes no memory.
///
/// # Errors
/// `Shape` where the text is spelled otherwise, `NoSuchMove` where no legal move is as it says, and
/// `Ambiguous` where more than one is.
pub fn read(position: &Position, text: &str) -> Result<Move, SanFault>
    ensures { IsReading position.now text.now result }
{
    match read_step(position, text.as_bytes()) {
        Ok(found) => Ok(found.m),
        Err(fault) => Err(fault),
    }
}
