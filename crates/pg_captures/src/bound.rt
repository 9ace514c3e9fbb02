//! The trait of bounds, with its law.
ghost use Rattle.std.specs.Prelude.{◌≡◌, ℕ, Bool, true};
ghost use Rattle.pg_board.specs.Placement.{Placement};
ghost use Rattle.pg_position.specs.declared.state.State.{State};
ghost use Rattle.pg_position.specs.Position.{IsPosition};
ghost use Rattle.pg_position.specs.Step.{IsLegal, Legal};
ghost use Rattle.pg_position.specs.Game.{Barren};

use pg_fen::Diagram;
use pg_position::{Move, Position};

/// A test that excludes games to a diagram. Its law: what it excludes is barren, which means that no list of legal
/// moves from the position, as many as plies are left, ends on the diagram.
pub trait Bound: Drop {
    /// The code by which a certificate names the bound.
    ghost code_of: { Self → ℕ };

    /// Whether the bound excludes: a placement to come to, from a position, in a number of plies. Its
    /// answers depend on nothing else.
    ghost excluded: { Self → Placement → State → ℕ → Bool };

    /// The code by which a certificate names the bound, 0 to 255.
    fn code(&self) -> u8
        ensures { result ≡ code_of self.now };

    /// Whether the bound excludes every game of `left` plies from the position to the diagram.
    fn excludes(&self, diagram: &Diagram, position: &Position, left: u8) -> bool
        ensures { result ≡ excluded self.now diagram.now position.now left };

    /// Whether the bound excludes every game of `left` plies from the position after a legal move to the
    /// diagram: what `excludes` answers there. A bound may tell it from the position before the move.
    fn excludes_after(&self, diagram: &Diagram, position: &Position, m: &Move, left: u8) -> bool
        requires { IsLegal position.now m.now }
        ensures { (q : State) → Legal position.now m.now q → result ≡ excluded self.now diagram.now q left }
    {
        self.excludes(diagram, &position.after(m), left)
    }

    /// The law: what is excluded cannot be reached.
    ghost sound: { (b : Self) (d : Placement) (p : State) (k : ℕ) →
        IsPosition p → excluded b d p k ≡ true → Barren d p k };
}
