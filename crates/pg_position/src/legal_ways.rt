//! The case of a move that is known to be legal, with no more tests than tell the cases apart.
ghost use Rattle.std.specs.Prelude.{◌≡◌, ◌≢◌, ◌+◌, ◌⊎◌, ◌↔◌, IsTrue, None};
ghost use Rattle.pg_board.specs.Squares.{file, rank};
ghost use Rattle.pg_position.specs.Position.{IsPosition};
ghost use Rattle.pg_position.specs.Step.{IsWay};
ghost use Rattle.pg_position.specs.Squares.{king_home, king_target};

use crate::boards::is_vacant;
use crate::moves::{Move, StepKind};
use crate::rights::Wing;
use crate::squares::{king_home, king_target};
use crate::state::State;
use pg_board::Kind;

// Whether the move goes from the king's home to where it castles.
fn goes_castling(state: &State, m: &Move, wing: Wing) -> bool
    ensures { IsTrue result ↔ ((m.now.from ≡ king_home state.now.side) × (m.now.to ≡ king_target state.now.side wing)) }
{
    m.from == king_home(state.side) && m.to == king_target(state.side, wing)
}

fn is_same_file(m: &Move) -> bool
    ensures { IsTrue result ↔ (file m.now.from ≡ file m.now.to) }
{
    m.from.file() == m.to.file()
}

pub(crate) fn is_two_ranks(m: &Move) -> bool
    ensures { IsTrue result ↔ ((rank m.now.from + 2 ≡ rank m.now.to) ⊎ (rank m.now.to + 2 ≡ rank m.now.from)) }
{
    m.from.rank() + 2 == m.to.rank() || m.to.rank() + 2 == m.from.rank()
}

fn pawn_way(state: &State, m: &Move) -> StepKind
    requires position { IsPosition state.now }
    requires unpromoted { m.now.promotion ≡ None }
    requires way { (w : StepKind) × IsWay state.now Kind.Pawn m.now w }
    ensures { IsWay state.now Kind.Pawn m.now result }
{
    let straight = is_same_file(m);
    let two = is_two_ranks(m);
    let vacant = is_vacant(&state.board, m.to);
    if straight {
        if two {
            StepKind::DoubleAdvance
        } else {
            StepKind::Plain
        }
    } else if vacant {
        StepKind::EnPassant
    } else {
        StepKind::Capture
    }
}

fn king_way(state: &State, m: &Move) -> StepKind
    requires unpromoted { m.now.promotion ≡ None }
    requires way { (w : StepKind) × IsWay state.now Kind.King m.now w }
    ensures { IsWay state.now Kind.King m.now result }
{
    let short = goes_castling(state, m, Wing::KingSide);
    let long = goes_castling(state, m, Wing::QueenSide);
    let vacant = is_vacant(&state.board, m.to);
    if short {
        StepKind::Castling(Wing::KingSide)
    } else if long {
        StepKind::Castling(Wing::QueenSide)
    } else if vacant {
        StepKind::Plain
    } else {
        StepKind::Capture
    }
}

fn piece_way(state: &State, kind: Kind, m: &Move) -> StepKind
    requires pawn { kind ≢ Kind.Pawn }
    requires king { kind ≢ Kind.King }
    requires unpromoted { m.now.promotion ≡ None }
    requires way { (w : StepKind) × IsWay state.now kind m.now w }
    ensures { IsWay state.now kind m.now result }
{
    if is_vacant(&state.board, m.to) {
        StepKind::Plain
    } else {
        StepKind::Capture
    }
}

// The case that a move is, where it is one.
pub(crate) fn legal_way(state: &State, kind: Kind, m: &Move) -> StepKind
    requires position { IsPosition state.now }
    requires way { (w : StepKind) × IsWay state.now kind m.now w }
    ensures { IsWay state.now kind m.now result }
{
    if let Some(piece) = m.promotion {
        return StepKind::Promotion(piece);
    }
    match kind {
        Kind::Pawn => pawn_way(state, m),
        Kind::King => king_way(state, m),
        _ => piece_way(state, kind, m),
    }
}
