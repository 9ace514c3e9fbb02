//! How many legal moves a position has, without a trial of those that cannot leave the king attacked.
ghost use Rattle.std.specs.Prelude.{◌≡◌, ◌≢◌, ℕ, ◌+◌, ◌*◌, ◌<◌, ◌≤◌, true};
ghost use Rattle.pg_board.specs.Bits.{has};
ghost use Rattle.pg_position.specs.Position.{Stands};
ghost use Rattle.pg_moves.specs.inner.Places.{most_of_a_man, place_of, Adds};
ghost use Rattle.pg_moves.specs.Targets.{IsOwn, Covers};
ghost use Rattle.pg_moves.specs.inner.Guards.{IsGuardedMan, CountsOn};
ghost use Rattle.pg_moves.specs.Counts.{IsGameCount};

use crate::guards::{Guard, find_guard};
use crate::kings::king_targets_of;
use crate::pawns::{pawn_ways, quiet_pawns};
use crate::pins::Pins;
use crate::places::Target;
use crate::player::Player;
use crate::search::first_of_man;
use crate::sources::source_at;
use crate::targets::advances;
use pg_board::{Color, Kind, Man, Square, SquareSet};
use pg_position::Position;
use std::marker::Model;

// How many legal moves the man on a square has, which go to squares of the set, each tried: not inlined,
// since few men must be tried.
#[inline(never)]
fn walked(position: &Position, kind: Kind, from: Square, set: SquareSet) -> u64
    requires stands { Stands position.now.board position.now.side kind from }
    requires covers { Covers position.now from set }
    ensures count { Adds position.now (place_of from 0 0) (place_of (from + 1) 0 0) result }
    ensures bound { result ≤ most_of_a_man }
{
    let mut total = 0;
    let mut target = Target::first();
    while let Some(m) = first_of_man(position, kind, from, set, target) {
        target = Target::past(&m);
        total += 1;
    }
    total
}

// How many legal moves the man of the side to move on a square has, who may be pinned, or a pawn that may
// promote or capture en passant: not inlined, since there are few.
#[inline(never)]
#[tactic(auto, unfolding(crate::specs::inner::Sources::IsToldSource))]
fn count_of_square(position: &Position, from: Square) -> u64
    requires { IsOwn position.now.board position.now.side from }
    ensures count { Adds position.now (place_of from 0 0) (place_of (from + 1) 0 0) result }
    ensures bound { result ≤ most_of_a_man }
{
    let source = source_at(&Pins::all(position), from);
    if source.exact {
        source.set.len() as u64
    } else {
        walked(position, source.kind, from, source.set)
    }
}

// How many legal moves a man has, no pawn, who may go just to the goals for his king's sake.
#[inline(always)]
fn count_of_man(player: &Player<'_>, kind: Kind, from: Square, goals: SquareSet) -> u64
    requires pawn { kind ≢ Kind.Pawn }
    requires guarded { IsGuardedMan player.now kind goals from }
    ensures count { Adds player.now (place_of from 0 0) (place_of (from + 1) 0 0) result }
    ensures bound { result ≤ most_of_a_man }
{
    // A fact for the proof: the square is on the board.
    from.index();
    (advances(player.board(), player.color(), kind, from) & goals).len() as u64
}

// How many legal moves such men of one kind have.
#[inline(always)]
fn count_of_men(player: &Player<'_>, kind: Kind, men: SquareSet, goals: SquareSet) -> u64
    requires pawn { kind ≢ Kind.Pawn }
    requires guarded { (q : ℕ) → q < 64 → has men q ≡ true → IsGuardedMan player.now kind goals q }
    ensures { CountsOn player.now (has men) result }
{
    let mut total = 0;
    let mut left = men;
    while let Some(from) = left.pop_first() {
        total += count_of_man(player, kind, from, goals);
    }
    total
}

// How many legal moves the men on these squares have, each looked at for himself.
#[inline(always)]
fn count_each(player: &Player<'_>, men: SquareSet) -> u64
    requires { (q : ℕ) → q < 64 → has men q ≡ true → IsOwn player.now.board player.now.side q }
    ensures { CountsOn player.now (has men) result }
{
    let mut total = 0;
    let mut left = men;
    while let Some(from) = left.pop_first() {
        total += count_of_square(player.position(), from);
    }
    total
}

// The player's men whose moves are still to be counted, none of whom may be pinned, and how many moves the others have.
// Contracts see the position.
#[derive(Drop)]
struct Counted<'a> {
    player: Player<'a>,
    guard: Guard,
    left: SquareSet,
    total: u64,
}

impl<'a> Model for Counted<'a> {
    ghost use Rattle.pg_position.specs.declared.state.State.{State};
    ghost use Rattle.pg_position.specs.contracts.state.State.{the_row as state_row};
    ghost use Rattle.pg_moves.specs.inner.Guards.{IsCounted};

    ghost Value = { State };

    ghost coded = { state_row.coded };

    ghost view = { λ a. a.player };

    ghost invariant = { λ a. IsCounted a.player a.guard.pinned a.guard.goals a.left a.total };
}

impl<'a> Counted<'a> {
    // Counts the pawns that need no trial, all at once.
    #[inline(always)]
    fn count_pawns(&mut self)
        ensures { self.new ≡ self.old }
    {
        let color = self.player.color();
        let pawns = quiet_pawns(&self.player, &self.guard, self.left);
        let ways = pawn_ways(self.player.board(), color, pawns, self.guard.goals);
        self.left = self.left - pawns;
        self.total += ways.count();
    }

    // Counts the men of a kind, no pawns.
    #[inline(always)]
    fn count_kind(&mut self, kind: Kind)
        requires { kind ≢ Kind.Pawn }
        ensures { self.new ≡ self.old }
    {
        let man = Man::new(self.player.color(), kind);
        let men = self.left & self.player.board().squares_of(man);
        self.left = self.left - men;
        self.total += count_of_men(&self.player, kind, men, self.guard.goals);
    }

    // Counts the men that are left, pawns that may promote or capture en passant: so all moves are counted.
    #[inline(always)]
    fn count_rest(&self) -> u64
        ensures { IsGameCount self.now 1 result }
    {
        // A fact for the proof: what is kept is a position.
        self.player.color();
        self.total + count_each(&self.player, self.left)
    }
}

// How many legal moves there are, kind by kind of the men of the side to move, whose colour is handed in. The king and
// the men that may be pinned come first, so no man that is left may be. They are counted here: a function of its own
// would not be inlined.
#[inline(always)]
fn count_of_color(position: &Position, color: Color) -> u64
    requires { color ≡ position.now.side }
    ensures { IsGameCount position.now 1 result }
{
    let board = position.board();
    let player = Player::new(position, &board, color);
    let guard = find_guard(&player);
    // A fact for the proof: the square is on the board.
    guard.king.index();
    let others = board.squares_of_color(color) - SquareSet::single(guard.king);
    let king = king_targets_of(&player, guard.king).len() as u64;
    let pinned = count_each(&player, others & guard.pinned);
    let mut counted = Counted {
        player,
        guard,
        left: others - guard.pinned,
        total: king + pinned,
    };
    counted.count_pawns();
    counted.count_kind(Kind::Knight);
    counted.count_kind(Kind::Bishop);
    counted.count_kind(Kind::Rook);
    counted.count_kind(Kind::Queen);
    counted.count_rest()
}

// How many legal moves there are.
pub(crate) fn count_moves(position: &Position) -> u64
    ensures { IsGameCount position.now 1 result }
{
    match position.side() {
        Color::White => count_of_color(position, Color::White),
        Color::Black => count_of_color(position, Color::Black),
    }
}
