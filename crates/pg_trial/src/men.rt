//! A bound by the numbers of men.
ghost use Rattle.std.specs.Prelude.{◌≡◌, ◌↔◌, ◌<◌, IsTrue, true};
ghost use Rattle.pg_board.specs.Placement.{Placement};
ghost use Rattle.pg_position.specs.declared.state.State.{State};
ghost use Rattle.pg_captures.specs.Counting.{men, any_man};
ghost use Rattle.pg_trial.specs.MenTest.{HasMoreMen, MenHolds, men_test};

use pg_board::{Board, Color};
use pg_captures::{Bound, victims_of};
use pg_fen::Diagram;
use pg_position::Position;

// How many men the colour has.
fn men_of(board: &Board, color: Color) -> u8
    ensures { result ≡ men color any_man board.now }
{
    victims_of(board, color.other())
}

// Whether the diagram has more men of the colour than the position.
#[tactic(auto, unfolding(crate::specs::MenTest::HasMoreMen))]
fn has_more(diagram: &Diagram, position: &Position, color: Color) -> bool
    ensures { IsTrue result ↔ HasMoreMen diagram.now position.now.board color }
{
    men_of(&position.board(), color) < men_of(&diagram.board(), color)
}

#[tactic(auto, unfolding(crate::specs::MenTest::MenHolds))]
fn men_hold(diagram: &Diagram, position: &Position) -> bool
    ensures { IsTrue result ↔ MenHolds diagram.now position.now }
{
    has_more(diagram, position, Color::White) || has_more(diagram, position, Color::Black)
}

/// A bound by the numbers of men, code 9. No move adds a man: it excludes where the diagram has more
/// men of a colour than the position, whatever the plies left.
#[derive(Drop)]
pub struct Men;

impl Bound for Men {
    ghost use Rattle.pg_board.specs.lemmas.Decisions.{answer_tells};
    ghost use Rattle.pg_trial.specs.MenTest.{dec_men, men_barren};

    ghost code_of = { λ b. 9 };

    ghost excluded = { λ b d p k. men_test d p };

    ghost sound = { λ b d p k valid h. men_barren d p k valid ((answer_tells (dec_men d p)).0 h) };

    fn code(&self) -> u8
        ensures { result ≡ 9 }
    {
        9
    }

    fn excludes(&self, diagram: &Diagram, position: &Position, _left: u8) -> bool
        ensures fixed { result ≡ men_test diagram.now position.now }
        ensures exact { IsTrue result ↔ MenHolds diagram.now position.now }
    {
        men_hold(diagram, position)
    }
}
