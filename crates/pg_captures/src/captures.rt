//! The captures owed, and the bound by them.
ghost use Rattle.std.specs.Prelude.{◌≡◌, ◌↔◌, ◌⊎◌, ◌+◌, ◌<◌, ◌≤◌, IsTrue};
ghost use Rattle.pg_captures.specs.Owed.{plies_left, victims, owed, CapturesFor, CapturesHolds};
ghost use Rattle.pg_position.specs.declared.state.State.{State};
ghost use Rattle.pg_position.specs.Step.{IsLegal, Legal};

use crate::bound::Bound;
use crate::counts::all_men;
use crate::taking::victims_after;
use pg_board::{Board, Color};
use pg_fen::Diagram;
use pg_position::{Move, Position};

/// How many of the next `plies` plies are the colour's, where `side` is to move first.
pub fn plies_left(side: Color, color: Color, plies: u8) -> u8
    ensures { result ≡ plies_left side color plies }
{
    if side == color {
        plies / 2 + plies % 2
    } else {
        plies / 2
    }
}

/// How many men the other colour has on a board, 0 to 64: those that the colour may capture.
pub fn victims_of(board: &Board, color: Color) -> u8
    ensures value { result ≡ victims color board.now }
    ensures few { result ≤ 64 }
{
    all_men(board, color.other())
}

/// How many men of the other colour the colour has to capture on the way to the diagram: those of
/// the position less those of the diagram, -64 to 64. Where it is negative no game leads there.
pub fn owed(color: Color, diagram: &Diagram, position: &Position) -> i16
    ensures { result ≡ owed diagram.now position.now.board color }
{
    let here = i16::from(victims_of(&position.board(), color));
    let there = i16::from(victims_of(&diagram.board(), color));
    here - there
}

// Whether a colour owes fewer captures than none, or more than `plies`, where the other colour has `here` men in the
// position and `there` in the diagram.
#[inline(always)]
fn is_owed_wrongly(here: u8, there: u8, plies: u8) -> bool
    requires { plies + there < 256 }
    ensures { IsTrue result ↔ ((here < there) ⊎ (plies + there < here)) }
{
    here < there || plies + there < here
}

#[tactic(auto, using(crate::specs::lemmas::OwedLemmas::captures_told))]
fn captures_hold_for(diagram: &Diagram, position: &Position, left: u8, color: Color) -> bool
    ensures { IsTrue result ↔ CapturesFor diagram.now position.now.board position.now.side left color }
{
    let here = victims_of(&position.board(), color);
    let there = victims_of(&diagram.board(), color);
    is_owed_wrongly(here, there, plies_left(position.side(), color, left))
}

#[tactic(auto, unfolding(crate::specs::Owed::CapturesHolds))]
fn captures_hold(diagram: &Diagram, position: &Position, left: u8) -> bool
    ensures { IsTrue result ↔ CapturesHolds diagram.now position.now left }
{
    captures_hold_for(diagram, position, left, Color::White)
        || captures_hold_for(diagram, position, left, Color::Black)
}

// The same after a legal move: the mover's captures, and those of the other side, which is to move then.
fn captures_hold_after(diagram: &Diagram, position: &Position, m: &Move, left: u8) -> bool
    requires { IsLegal position.now m.now }
    ensures { (q : State) → Legal position.now m.now q → IsTrue result ↔ CapturesHolds diagram.now q left }
{
    let mover = position.side();
    let other = mover.other();
    let goal = diagram.board();
    let here = victims_after(position, m);
    let own = victims_of(&position.board(), other);
    is_owed_wrongly(
        here,
        victims_of(&goal, mover),
        plies_left(other, mover, left),
    ) || is_owed_wrongly(
        own,
        victims_of(&goal, other),
        plies_left(other, other, left),
    )
}

/// The bound by captures, code 1. Each capture is a ply of its own colour: it excludes where a
/// colour owes fewer captures than none, or more than it has plies left.
#[derive(Drop)]
pub struct Captures;

impl Captures {
    /// The code by which a certificate names this bound.
    pub const CODE: u8 = 1;
}

impl Bound for Captures {
    ghost use Rattle.pg_captures.specs.lemmas.CapturesLaw.{captures_barren};
    ghost use Rattle.pg_board.specs.lemmas.Decisions.{answer_tells};
    ghost use Rattle.pg_captures.specs.Decided.{dec_captures, captures_test};

    ghost code_of = { λ b. 1 };

    ghost excluded = { λ b d p k. captures_test d p k };

    ghost sound = { λ b d p k valid h. captures_barren d p k valid ((answer_tells (dec_captures d p k)).0 h) };

    fn code(&self) -> u8
        ensures { result ≡ 1 }
    {
        Captures::CODE
    }

    fn excludes(&self, diagram: &Diagram, position: &Position, left: u8) -> bool
        ensures fixed { result ≡ captures_test diagram.now position.now left }
        ensures exact { IsTrue result ↔ CapturesHolds diagram.now position.now left }
    {
        captures_hold(diagram, position, left)
    }

    fn excludes_after(&self, diagram: &Diagram, position: &Position, m: &Move, left: u8) -> bool {
        captures_hold_after(diagram, position, m, left)
    }
}
