//! Writing a legal move.
ghost use Rattle.std.specs.Prelude.{◌≡◌, ◌≢◌};
ghost use Rattle.pg_position.specs.Position.{Stands};
ghost use Rattle.pg_position.specs.Step.{Legal, IsLegal};
ghost use Rattle.pg_san.specs.Writing.{IsCore, IsForm, IsHint, IsPawnHint, IsSignOf, IsSan};

use crate::castling::castles;
use crate::cores::Core;
use crate::matching::{mover, takes};
use crate::rivals::{Hint, hint_of};
use crate::said::Form;
use crate::spelling::write_form;
use arrayvec::ArrayString;
use pg_board::Kind;
use pg_moves::next_legal;
use pg_position::{Move, Position, Wing};

/// The text of a move, as `Qa1xc3+` or `exd8=Q#`.
pub type San = ArrayString<8>;

fn hint_for(position: &Position, kind: Kind, m: &Move) -> Hint
    ensures pawn { kind ≡ Kind.Pawn → IsPawnHint m.now result.file result.rank }
    ensures other { kind ≢ Kind.Pawn → IsHint position.now kind m.now result.file result.rank }
{
    match kind {
        Kind::Pawn => Hint {
            file: Some(m.from.file()),
            rank: None,
        },
        _ => hint_of(position, kind, m),
    }
}

fn core_for(position: &Position, kind: Kind, m: &Move) -> Core
    requires legal { IsLegal position.now m.now }
    requires stands { Stands position.now.board position.now.side kind m.now.from }
    ensures { IsCore position.now kind m.now result }
{
    let hint = hint_for(position, kind, m);
    Core {
        kind: Some(kind),
        file: hint.file,
        rank: hint.rank,
        target: m.to,
        takes: takes(position, kind, m),
        promotion: m.promotion,
    }
}

fn form_for(position: &Position, kind: Kind, m: &Move) -> Form
    requires legal { IsLegal position.now m.now }
    requires stands { Stands position.now.board position.now.side kind m.now.from }
    ensures { IsForm position.now kind m.now result }
{
    if castles(kind, m, Wing::KingSide) {
        return Form::Castles(Wing::KingSide);
    }
    if castles(kind, m, Wing::QueenSide) {
        return Form::Castles(Wing::QueenSide);
    }
    Form::Moves(core_for(position, kind, m))
}

// `#` for checkmate, `+` for check, else nothing.
fn sign_after(next: &Position) -> &'static str
    ensures { IsSignOf next.now result.now }
{
    if !next.in_check() {
        return "";
    }
    match next_legal(next, None) {
        Some(_) => "+",
        None => "#",
    }
}

fn write_move(position: &Position, m: &Move, next: &Position) -> San
    requires { Legal position.now m.now next.now }
    ensures { IsSan position.now m.now result.bytes }
{
    let kind = mover(position, m);
    let form = form_for(position, kind, m);
    write_form(kind, &form, sign_after(next))
}

/// The text of a legal move (the PGN standard, section 8.2.3). Castling is `O-O` towards the h-file
/// and `O-O-O` towards the a-file. Otherwise these follow one another: the letter `K`, `Q`, `R`, `B`
/// or `N` of the man, none for a pawn; what tells it apart; `x` for a capture, en passant included;
/// the target; `=` and the letter of a promotion. A pawn that captures has its file before the `x`.
/// A man other than a pawn is told apart where another of its kind and colour has a legal move to the
/// same target: by its file where no such other man stands on that file, else by its rank where none
/// stands on that rank, else by both. Last comes `#` for checkmate or `+` for check. The caller knows
/// that the move is legal. Takes no memory.
pub fn write(position: &Position, m: Move) -> San
    requires { IsLegal position.now m }
    ensures { IsSan position.now m result.bytes }
{
    write_move(position, &m, &position.after(&m))
}

/// The text of a legal move, as `write` has it, for a caller who has the position that the move leads
/// to. Takes no memory.
pub fn write_with(position: &Position, m: Move, next: &Position) -> San
    requires { Legal position.now m next.now }
    ensures { IsSan position.now m result.bytes }
{
    write_move(position, &m, next)
}
