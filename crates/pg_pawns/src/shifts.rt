//! The file changes that pawns need, and the bound by them.

ghost use Rattle.std.specs.Prelude.{◌≡◌, ℕ, ◌↔◌, ◌<◌, ◌≤◌, IsTrue};
ghost use Rattle.pg_captures.specs.Owed.{victims};
ghost use Rattle.pg_pawns.specs.PawnFiles.{line_need, shift, PawnFilesFor, PawnFilesHolds};

use crate::files::{left_pawns, right_pawns};
use pg_board::{Board, Color};
use pg_captures::{Bound, victims_of};
use pg_fen::Diagram;
use pg_position::Position;

// How many pawns are short left and right of the line after the file `n + 1`.
#[tactic(auto, unfolding(crate::specs::PawnFiles::line_need))]
fn line_need(goal: &Board, board: &Board, color: Color, n: u8) -> u16
    requires { n < 7 }
    ensures value { result ≡ line_need goal.now board.now color n }
    ensures few { result ≤ 128 }
{
    let left = left_pawns(goal, color, n).saturating_sub(left_pawns(board, color, n));
    let right = right_pawns(goal, color, n).saturating_sub(right_pawns(board, color, n));
    u16::from(left) + u16::from(right)
}

// How many file changes the pawns need.
#[tactic(auto, using(crate::proofs::FileLemmas::totals), unfolding(crate::specs::PawnFiles::shift))]
fn shift(goal: &Board, board: &Board, color: Color) -> u16
    ensures value { result ≡ shift goal.now board.now color }
    ensures few { result ≤ 896 }
{
    let mut sum = 0;
    for n in 0..7u8 {
        sum += line_need(goal, board, color, n);
    }
    sum
}

/// How many changes of file the colour's pawns need on the way from the position to the diagram:
/// over the seven lines between neighbouring files, the pawns that the diagram has above those of
/// the position on the left, and on the right, 0 to 896.
pub fn shift_need(color: Color, diagram: &Diagram, position: &Position) -> u16
    ensures { result ≡ shift diagram.now position.now.board color }
{
    shift(&diagram.board(), &position.board(), color)
}

#[tactic(auto, using(crate::proofs::OwedLemmas::files_told))]
fn pawn_files_hold_for(goal: &Board, board: &Board, color: Color) -> bool
    ensures { IsTrue result ↔ PawnFilesFor goal.now board.now color }
{
    let here = u16::from(victims_of(board, color));
    let there = u16::from(victims_of(goal, color));
    here < shift(goal, board, color) + there
}

#[tactic(auto, unfolding(crate::specs::PawnFiles::PawnFilesHolds))]
fn pawn_files_hold(diagram: &Diagram, position: &Position) -> bool
    ensures { IsTrue result ↔ PawnFilesHolds diagram.now position.now }
{
    let goal = diagram.board();
    let board = position.board();
    pawn_files_hold_for(&goal, &board, Color::White)
        || pawn_files_hold_for(&goal, &board, Color::Black)
}

/// The bound by pawn files, code 3. A pawn changes its file by a capture alone, one file at a time:
/// it excludes where the pawns of a colour need more changes of file than the colour owes captures.
#[derive(Drop)]
pub struct PawnFiles;

impl PawnFiles {
    /// The code by which a certificate names this bound, and prices of pawn files.
    pub const CODE: u8 = 3;
}

impl Bound for PawnFiles {
    ghost use Rattle.pg_board.specs.lemmas.Decisions.{answer_tells};
    ghost use Rattle.pg_pawns.specs.Decided.{dec_pawn_files, pawn_files_test};
    ghost use Rattle.pg_pawns.specs.lemmas.PawnFilesLaw.{files_barren};

    ghost code_of = { λ b. 3 };

    ghost excluded = { λ b d p k. pawn_files_test d p };

    ghost sound = { λ b d p k valid h. files_barren d p k valid ((answer_tells (dec_pawn_files d p)).0 h) };

    fn code(&self) -> u8
        ensures { result ≡ 3 }
    {
        PawnFiles::CODE
    }

    fn excludes(&self, diagram: &Diagram, position: &Position, left: u8) -> bool
        ensures fixed { result ≡ pawn_files_test diagram.now position.now }
        ensures exact { IsTrue result ↔ PawnFilesHolds diagram.now position.now }
    {
        pawn_files_hold(diagram, position)
    }
}
