//! Bounds in a list, of any types: the first one with a code.
ghost use Rattle.std.specs.Prelude.{◌≡◌, ℕ, IsTrue, Some, None, true};
ghost use Rattle.std.specs.Option.{option_map};
ghost use Rattle.pg_captures.specs.Lists.{first_of};
ghost use Rattle.pg_position.specs.declared.state.State.{State};
ghost use Rattle.pg_position.specs.Game.{Barren};
ghost use Rattle.pg_position.specs.Step.{IsLegal, Legal};

use crate::bound::Bound;
use pg_fen::Diagram;
use pg_position::{Move, Position};

fn excludes_box(bound: &Box<dyn Bound>, diagram: &Diagram, position: &Position, left: u8) -> bool
    ensures { result ≡ excluded bound.now diagram.now position.now left }
{
    bound.excludes(diagram, position, left)
}

/// Whether a bound of any type excludes every game of `left` plies from the position to the diagram. A
/// yes means that there is no such game, also where the bound was never seen.
pub fn ask(bound: &Box<dyn Bound>, diagram: &Diagram, position: &Position, left: u8) -> bool
    ensures value { result ≡ excluded bound.now diagram.now position.now left }
    ensures barren { IsTrue result → Barren diagram.now position.now left }
{
    // A fact for the proof: what is handed in is a position.
    position.side();
    excludes_box(bound, diagram, position, left)
}

fn code_of_box(bound: &Box<dyn Bound>) -> u8
    ensures { result ≡ code_of bound.now }
{
    bound.code()
}

/// Whether the first bound in the list with this code excludes every game of `left` plies from the
/// position to the diagram; none where no bound has the code. A yes means that there is no such
/// game, whatever bounds the list holds.
pub fn first_excludes(
    bounds: &[Box<dyn Bound>],
    code: u8,
    diagram: &Diagram,
    position: &Position,
    left: u8,
) -> Option<bool>
    ensures first { result ≡ option_map (λ b. excluded b diagram.now position.now left)
        (first_of (λ b. code_of b) code bounds.now) }
    ensures barren { result ≡ Some true → Barren diagram.now position.now left }
{
    for bound in bounds {
        if code_of_box(bound) == code {
            return Some(ask(bound, diagram, position, left));
        }
    }
    None
}

fn excludes_after_box(
    bound: &Box<dyn Bound>,
    diagram: &Diagram,
    position: &Position,
    m: &Move,
    left: u8,
) -> bool
    requires { IsLegal position.now m.now }
    ensures { (q : State) → Legal position.now m.now q → result ≡ excluded bound.now diagram.now q left }
{
    bound.excludes_after(diagram, position, m, left)
}

// Whether a bound of any type excludes every game of `left` plies from the position after a legal move.
fn ask_after(
    bound: &Box<dyn Bound>,
    diagram: &Diagram,
    position: &Position,
    m: &Move,
    left: u8,
) -> bool
    requires { IsLegal position.now m.now }
    ensures value { (q : State) → Legal position.now m.now q → result ≡ excluded bound.now diagram.now q left }
    ensures barren { IsTrue result → (q : State) → Legal position.now m.now q → Barren diagram.now q left }
{
    // A fact for the proof: what is handed in is a position.
    position.side();
    excludes_after_box(bound, diagram, position, m, left)
}

/// Whether the first bound in the list with this code excludes every game of `left` plies from the
/// position after a legal move to the diagram: what `first_excludes` answers there. A bound that can tell
/// it from the position before the move, as the captures can, does so.
pub fn first_excludes_after(
    bounds: &[Box<dyn Bound>],
    code: u8,
    diagram: &Diagram,
    position: &Position,
    m: &Move,
    left: u8,
) -> Option<bool>
    requires { IsLegal position.now m.now }
    ensures first { (q : State) → Legal position.now m.now q → result
        ≡ option_map (λ b. excluded b diagram.now q left) (first_of (λ b. code_of b) code bounds.now) }
    ensures barren { result ≡ Some true → (q : State) → Legal position.now m.now q → Barren diagram.now q left }
{
    for bound in bounds {
        if code == code_of_box(bound) {
            return Some(ask_after(bound, diagram, position, m, left));
        }
    }
    None
}
