//! The six cases of a step, as tests.
ghost use Rattle.std.specs.Prelude.{◌≡◌, ◌≢◌, ℕ, ◌+◌, ◌-◌, ◌*◌, ◌<◌, ◌≤◌, ◌↔◌, ◌⊎◌, IsTrue, MatchOption, Some, None};
ghost use Rattle.std.specs.Prelude.{true};
ghost use Rattle.pg_board.specs.Men.{other, man};
ghost use Rattle.pg_position.specs.Geometry.{InPattern};
ghost use Rattle.pg_position.specs.Step.{IsPlain, IsCapture, IsDoubleAdvance, IsEnPassant, IsPromotion, IsCastling};
ghost use Rattle.pg_position.specs.Step.{IsWay, MustPromote, IsEnemy};
ghost use Rattle.pg_position.specs.Position.{IsVacant};

use crate::attack::attacked;
use crate::boards::{goes, is_enemy, is_vacant};
use crate::masks::pawn_mask;
use crate::moves::{Move, StepKind};
use crate::reaching::reaches;
use crate::rights::Wing;
use crate::squares::{ahead, home_rank, king_home, king_target, must_promote};
use crate::state::State;
use pg_board::{Color, Kind, Man};

#[inline(always)]
pub(crate) fn is_plain(state: &State, kind: Kind, m: &Move) -> bool
    ensures { IsTrue result ↔ IsPlain state.now kind m.now }
{
    m.promotion.is_none()
        && !must_promote(kind, state.side, m.to)
        && is_vacant(&state.board, m.to)
        && goes(&state.board, &Man::new(state.side, kind), m.from, m.to)
}

#[inline(always)]
pub(crate) fn is_capture(state: &State, kind: Kind, m: &Move) -> bool
    ensures { IsTrue result ↔ IsCapture state.now kind m.now }
{
    m.promotion.is_none()
        && !must_promote(kind, state.side, m.to)
        && is_enemy(&state.board, state.side, m.to)
        && reaches(&state.board, Man::new(state.side, kind), m.from, m.to)
}

// Whether a pawn on its home rank goes two forward over an empty square to an empty square.
#[inline(always)]
pub(crate) fn is_double_advance(state: &State, kind: Kind, m: &Move) -> bool
    ensures { IsTrue result ↔ IsDoubleAdvance state.now kind m.now }
{
    m.promotion.is_none()
        && kind == Kind::Pawn
        && m.from.rank() == home_rank(state.side)
        && m.to == ahead(state.side, 2, m.from)
        && is_vacant(&state.board, ahead(state.side, 1, m.from))
        && is_vacant(&state.board, m.to)
}

#[inline(always)]
pub(crate) fn is_en_passant(state: &State, kind: Kind, m: &Move) -> bool
    ensures { IsTrue result ↔ IsEnPassant state.now kind m.now }
{
    m.promotion.is_none()
        && kind == Kind::Pawn
        && state.passed == Some(m.to)
        && pawn_mask(state.side, m.from).contains(m.to)
}

pub(crate) fn is_promotion(state: &State, kind: Kind, m: &Move, piece: Kind) -> bool
    ensures { IsTrue result ↔ IsPromotion state.now kind m.now piece }
{
    m.promotion == Some(piece)
        && piece != Kind::Pawn
        && piece != Kind::King
        && must_promote(kind, state.side, m.to)
        && ((is_vacant(&state.board, m.to)
            && goes(&state.board, &Man::new(state.side, kind), m.from, m.to))
            || (is_enemy(&state.board, state.side, m.to)
                && reaches(&state.board, Man::new(state.side, kind), m.from, m.to)))
}

pub(crate) fn is_castling(state: &State, kind: Kind, m: &Move, wing: Wing) -> bool
    ensures { IsTrue result ↔ IsCastling state.now kind m.now wing }
{
    let home = king_home(state.side);
    let target = king_target(state.side, wing);
    m.promotion.is_none()
        && kind == Kind::King
        && m.from == home
        && m.to == target
        && state.is_castling_open(wing)
        && !attacked(&state.board, home, state.side.other())
        && state.is_castling_safe(wing)
}

// The case that a pawn's move without promotion is, if it is one.
#[inline(always)]
fn pawn_case(state: &State, m: &Move) -> Option<StepKind>
    requires { m.now.promotion ≡ None }
    ensures { MatchOption result ((w : StepKind) → ¬ IsWay state.now Kind.Pawn m.now w)
        (λ w. IsWay state.now Kind.Pawn m.now w) }
{
    if is_plain(state, Kind::Pawn, m) {
        Some(StepKind::Plain)
    } else if is_double_advance(state, Kind::Pawn, m) {
        Some(StepKind::DoubleAdvance)
    } else if is_capture(state, Kind::Pawn, m) {
        Some(StepKind::Capture)
    } else if is_en_passant(state, Kind::Pawn, m) {
        Some(StepKind::EnPassant)
    } else {
        None
    }
}

// The case that a king's move is, if it is one. It is no part of the caller's code, since castling asks after many
// squares.
#[inline(never)]
fn king_case(state: &State, m: &Move) -> Option<StepKind>
    requires { m.now.promotion ≡ None }
    ensures { MatchOption result ((w : StepKind) → ¬ IsWay state.now Kind.King m.now w)
        (λ w. IsWay state.now Kind.King m.now w) }
{
    if is_plain(state, Kind::King, m) {
        Some(StepKind::Plain)
    } else if is_capture(state, Kind::King, m) {
        Some(StepKind::Capture)
    } else if is_castling(state, Kind::King, m, Wing::KingSide) {
        Some(StepKind::Castling(Wing::KingSide))
    } else if is_castling(state, Kind::King, m, Wing::QueenSide) {
        Some(StepKind::Castling(Wing::QueenSide))
    } else {
        None
    }
}

// The case that another man's move is, if it is one.
#[inline(always)]
fn piece_case(state: &State, kind: Kind, m: &Move) -> Option<StepKind>
    requires pawn { kind ≢ Kind.Pawn }
    requires king { kind ≢ Kind.King }
    requires unpromoted { m.now.promotion ≡ None }
    ensures { MatchOption result ((w : StepKind) → ¬ IsWay state.now kind m.now w)
        (λ w. IsWay state.now kind m.now w) }
{
    if is_plain(state, kind, m) {
        Some(StepKind::Plain)
    } else if is_capture(state, kind, m) {
        Some(StepKind::Capture)
    } else {
        None
    }
}

// The case that a move without promotion is, if it is one.
#[inline(always)]
fn quiet_way(state: &State, kind: Kind, m: &Move) -> Option<StepKind>
    requires { m.now.promotion ≡ None }
    ensures { MatchOption result ((w : StepKind) → ¬ IsWay state.now kind m.now w)
        (λ w. IsWay state.now kind m.now w) }
{
    match kind {
        Kind::Pawn => pawn_case(state, m),
        Kind::King => king_case(state, m),
        _ => piece_case(state, kind, m),
    }
}

// The case that the move is, if it is one.
pub(crate) fn way(state: &State, kind: Kind, m: &Move) -> Option<StepKind>
    ensures { MatchOption result ((w : StepKind) → ¬ IsWay state.now kind m.now w)
        (λ w. IsWay state.now kind m.now w) }
{
    match m.promotion {
        Some(piece) => {
            if is_promotion(state, kind, m, piece) {
                Some(StepKind::Promotion(piece))
            } else {
                None
            }
        }
        None => quiet_way(state, kind, m),
    }
}
