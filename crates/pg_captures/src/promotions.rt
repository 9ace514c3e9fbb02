//! The bound by promotions: pawns to spare against men that are short.
ghost use Rattle.std.specs.Prelude.{◌≡◌, ℕ, ◌↔◌, ◌≤◌, IsTrue};
ghost use Rattle.pg_captures.specs.Owed.{missing, shortage, PromotionsFor, PromotionsHolds};

use crate::bound::Bound;
use crate::classes::Class;
use crate::counts::{class_men, pawns};
use pg_board::{Board, Color};
use pg_fen::Diagram;
use pg_position::Position;

// How many men of a class the board has too few.
#[tactic(auto, unfolding(crate::specs::Owed::missing))]
fn missing(goal: &Board, board: &Board, color: Color, class: Class) -> u8
    ensures value { result ≡ missing goal.now board.now color class }
    ensures few { result ≤ 64 }
{
    class_men(goal, color, class).saturating_sub(class_men(board, color, class))
}

/// How many men that are no pawns the colour has too few on a board to come to the goal, 0 to 320:
/// queens, rooks, knights, bishops on light squares and bishops on dark squares, each for itself.
#[tactic(auto, unfolding(crate::specs::Owed::shortage))]
pub fn shortage(goal: &Board, board: &Board, color: Color) -> u16
    ensures value { result ≡ shortage goal.now board.now color }
    ensures few { result ≤ 320 }
{
    let queens = u16::from(missing(goal, board, color, Class::Queens));
    let rooks = u16::from(missing(goal, board, color, Class::Rooks));
    let knights = u16::from(missing(goal, board, color, Class::Knights));
    let light = u16::from(missing(goal, board, color, Class::LightBishops));
    let dark = u16::from(missing(goal, board, color, Class::DarkBishops));
    queens + rooks + knights + light + dark
}

/// Whether the colour lacks more men that are no pawns than it has pawns above those of the goal:
/// no number of promotions leads there.
pub fn is_short(goal: &Board, board: &Board, color: Color) -> bool
    ensures { IsTrue result ↔ PromotionsFor goal.now board.now color }
{
    let here = u16::from(pawns(board, color));
    let there = u16::from(pawns(goal, color));
    here < shortage(goal, board, color) + there
}

#[tactic(auto, unfolding(crate::specs::Owed::PromotionsHolds))]
fn promotions_hold(diagram: &Diagram, position: &Position) -> bool
    ensures { IsTrue result ↔ PromotionsHolds diagram.now position.now }
{
    let goal = diagram.board();
    let board = position.board();
    is_short(&goal, &board, Color::White) || is_short(&goal, &board, Color::Black)
}

/// The bound by promotions, code 2. Each man that the diagram has above those of the position must
/// be a promoted pawn: it excludes where a colour lacks more queens, rooks, knights, bishops on
/// light squares and bishops on dark squares than it has pawns above those of the diagram.
#[derive(Drop)]
pub struct Promotions;

impl Promotions {
    /// The code by which a certificate names this bound.
    pub const CODE: u8 = 2;
}

impl Bound for Promotions {
    ghost use Rattle.pg_captures.specs.lemmas.PromotionsLaw.{promotions_barren};
    ghost use Rattle.pg_board.specs.lemmas.Decisions.{answer_tells};
    ghost use Rattle.pg_captures.specs.Decided.{dec_promotions, promotions_test};

    ghost code_of = { λ b. 2 };

    ghost excluded = { λ b d p k. promotions_test d p };

    ghost sound = { λ b d p k valid h. promotions_barren d p k valid ((answer_tells (dec_promotions d p)).0 h) };

    fn code(&self) -> u8
        ensures { result ≡ 2 }
    {
        Promotions::CODE
    }

    fn excludes(&self, diagram: &Diagram, position: &Position, left: u8) -> bool
        ensures fixed { result ≡ promotions_test diagram.now position.now }
        ensures exact { IsTrue result ↔ PromotionsHolds diagram.now position.now }
    {
        promotions_hold(diagram, position)
    }
}
