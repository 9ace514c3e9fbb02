//! Where the king goes, as a set, with himself lifted off the board once.
ghost use Rattle.std.specs.Prelude.{◌≡◌, ℕ, ◌<◌, ◌↔◌, IsTrue, true};
ghost use Rattle.pg_board.specs.Bits.{has};
ghost use Rattle.pg_position.specs.Position.{Stands};
ghost use Rattle.pg_position.specs.Step.{IsLegal};
ghost use Rattle.pg_board.specs.SquareSets.{IsSetOf};
ghost use Rattle.pg_moves.specs.inner.Sources.{IsExact};
ghost use Rattle.pg_moves.specs.Targets.{Advances, plain_move};

use crate::player::Player;
use crate::targets::advances;
use pg_board::{Kind, Square, SquareSet};
use pg_position::{Position, attacked};

// The set, without the square unless that is kept.
fn kept_if(set: SquareSet, square: Square, keep: bool) -> SquareSet
    ensures { (q : ℕ) → q < 64 → IsTrue (has result q) ↔ ((has set q ≡ true) × (q ≡ square → keep ≡ true)) }
{
    if keep {
        set
    } else {
        set - SquareSet::single(square)
    }
}

// Of the squares to which the king may step by his pattern those on which he would not be attacked.
#[inline(always)]
fn safe_steps(player: &Player<'_>, from: Square, steps: SquareSet) -> SquareSet
    requires stands { Stands player.now.board player.now.side Kind.King from }
    requires steps { IsSetOf steps (Advances player.now.board player.now.side Kind.King from) }
    ensures { IsSetOf result (λ q. (has steps q ≡ true) × IsLegal player.now (plain_move from q)) }
{
    if steps.is_empty() {
        return SquareSet::empty();
    }
    // A fact for the proof: the square is on the board.
    from.index();
    let by = player.color().other();
    let mut lifted = *player.board();
    lifted.take(from);
    let mut kept = steps;
    let mut left = steps;
    while let Some(square) = left.pop_first() {
        let unsafe_there = attacked(&lifted, square, by);
        kept = kept_if(kept, square, !unsafe_there);
    }
    kept
}

// The squares to which the legal moves of the player's king go: by a step, and by castling.
#[inline(always)]
pub(crate) fn king_targets_of(player: &Player<'_>, from: Square) -> SquareSet
    requires { Stands player.now.board player.now.side Kind.King from }
    ensures { IsExact player.now from result }
{
    // A fact for the proof: the square is on the board.
    from.index();
    let steps = advances(player.board(), player.color(), Kind::King, from);
    safe_steps(player, from, steps) | player.position().castling_targets()
}

// The same of a position: not inlined, since the search meets few kings.
#[inline(never)]
pub(crate) fn king_targets(position: &Position, from: Square) -> SquareSet
    requires { Stands position.now.board position.now.side Kind.King from }
    ensures { IsExact position.now from result }
{
    let board = position.board();
    let player = Player::new(position, &board, position.side());
    king_targets_of(&player, from)
}
