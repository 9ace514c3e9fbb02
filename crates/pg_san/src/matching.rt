//! Whether a legal move is as a text says.
ghost use Rattle.std.specs.Prelude.{◌≡◌, ◌≢◌, ◌↔◌, IsTrue, IfSome, Some};
ghost use Rattle.pg_board.specs.Squares.{file, rank};
ghost use Rattle.pg_position.specs.Position.{Stands, IsPosition};
ghost use Rattle.pg_position.specs.Step.{IsLegal, IsEnPassant};
ghost use Rattle.pg_san.specs.Matching.{IsCapturing, FitsCore, FitsForm, FitsAs, Fits};

use crate::castling::castles;
use crate::cores::Core;
use crate::said::{Form, Said};
use pg_board::{Kind, Square};
use pg_position::{Move, Position, is_enemy};

// Whether a man of this kind comes to the passed square from another file, as a pawn.
fn is_aside(position: &Position, kind: Kind, m: &Move) -> bool
    ensures { IsTrue result ↔ ((kind ≡ Kind.Pawn) × (position.now.passed ≡ Some m.now.to)
        × (file m.now.from ≢ file m.now.to)) }
{
    kind == Kind::Pawn && position.passed() == Some(m.to) && m.from.file() != m.to.file()
}

// Whether a legal move of a man of this kind captures en passant. No pawn goes straight to the passed
// square: the other side's pawn stands in front of it.
fn is_en_passant(position: &Position, kind: Kind, m: &Move) -> bool
    requires legal { IsLegal position.now m.now }
    requires stands { Stands position.now.board position.now.side kind m.now.from }
    ensures { IsTrue result ↔ IsEnPassant position.now kind m.now }
{
    // A fact for the proof: what is handed in is a position.
    position.side();
    is_aside(position, kind, m)
}

/// Whether a legal move of a man of this kind captures.
pub fn takes(position: &Position, kind: Kind, m: &Move) -> bool
    requires legal { IsLegal position.now m.now }
    requires stands { Stands position.now.board position.now.side kind m.now.from }
    ensures { IsTrue result ↔ IsCapturing position.now kind m.now }
{
    is_enemy(&position.board(), position.side(), m.to) || is_en_passant(position, kind, m)
}

fn fits_kind(said: Option<Kind>, kind: Kind) -> bool
    ensures { IsTrue result ↔ IfSome said (λ j. j ≡ kind) }
{
    match said {
        Some(said) => said == kind,
        None => true,
    }
}

fn fits_file(said: Option<u8>, square: Square) -> bool
    ensures { IsTrue result ↔ IfSome said (λ f. file square ≡ f) }
{
    match said {
        Some(said) => square.file() == said,
        None => true,
    }
}

fn fits_rank(said: Option<u8>, square: Square) -> bool
    ensures { IsTrue result ↔ IfSome said (λ r. rank square ≡ r) }
{
    match said {
        Some(said) => square.rank() == said,
        None => true,
    }
}

fn fits_core(position: &Position, core: &Core, kind: Kind, m: &Move) -> bool
    requires legal { IsLegal position.now m.now }
    requires stands { Stands position.now.board position.now.side kind m.now.from }
    ensures { IsTrue result ↔ FitsCore position.now core.now kind m.now }
{
    fits_kind(core.kind, kind)
        && fits_file(core.file, m.from)
        && fits_rank(core.rank, m.from)
        && m.to == core.target
        && (!core.takes || takes(position, kind, m))
        && m.promotion == core.promotion
}

fn fits_form(position: &Position, form: &Form, kind: Kind, m: &Move) -> bool
    requires legal { IsLegal position.now m.now }
    requires stands { Stands position.now.board position.now.side kind m.now.from }
    ensures { IsTrue result ↔ FitsForm position.now form.now kind m.now }
{
    match form {
        Form::Castles(wing) => castles(kind, m, *wing),
        Form::Moves(core) => fits_core(position, core, kind, m),
    }
}

fn fits_as(position: &Position, said: &Said, kind: Kind, m: &Move) -> bool
    requires legal { IsLegal position.now m.now }
    requires stands { Stands position.now.board position.now.side kind m.now.from }
    ensures { IsTrue result ↔ FitsAs position.now said.now kind m.now }
{
    fits_form(position, &said.form, kind, m) && (!said.passing || is_en_passant(position, kind, m))
}

/// The kind of the man that makes a legal move.
#[tactic(auto, using(crate::proofs::MoveLemmas::mover_stands, crate::proofs::MoveLemmas::some_mover))]
pub fn mover(position: &Position, m: &Move) -> Kind
    requires { IsLegal position.now m.now }
    ensures { Stands position.now.board position.now.side result m.now.from }
{
    match position.board().get(m.from) {
        Some(man) => man.kind,
        None => unreachable!(),
    }
}

/// Whether a legal move is as the text says.
#[tactic(auto, using(crate::proofs::MoveLemmas::as_stands), unfolding(crate::specs::Matching::Fits))]
pub fn fits(position: &Position, said: &Said, m: &Move) -> bool
    requires { IsLegal position.now m.now }
    ensures { IsTrue result ↔ Fits position.now said.now m.now }
{
    fits_as(position, said, mover(position, m), m)
}
