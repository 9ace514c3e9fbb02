//! Pawns counted all at once: the sets of the squares from which they go, by sets shifted along the
//! board.
ghost use Rattle.std.specs.Prelude.{◌≡◌, ℕ, ◌<◌, ◌≤◌, IsFalse, true};
ghost use Rattle.pg_board.specs.Bits.{has};
ghost use Rattle.pg_board.specs.Squares.{rank};
ghost use Rattle.pg_board.specs.Tally.{total};
ghost use Rattle.pg_board.specs.declared.man.Kind.TheVariants.{Pawn};
ghost use Rattle.pg_position.specs.Position.{IsVacant};
ghost use Rattle.pg_board.specs.SquareSets.{IsSetOf};
ghost use Rattle.pg_position.specs.Step.{IsEnemy};
ghost use Rattle.pg_position.specs.Squares.{home_rank};
ghost use Rattle.pg_moves.specs.inner.Pawns.{forward, IsInside, AreInside, AreWays, IsQuiet, moves_from, one_rank};
ghost use Rattle.pg_moves.specs.inner.Pawns.{two_ranks, to_west, to_east};
ghost use Rattle.pg_moves.specs.Targets.{CapturesEnPassant};
ghost use Rattle.pg_moves.specs.inner.Guards.{GuardsOff, AreOff};

use crate::guards::Guard;
use crate::player::Player;
use pg_board::{Board, Color, Kind, Man, SquareSet};
use pg_position::{Position, attacks_from, home_rank};

// The squares from which pawns go one square forward, go two, capture towards the a-file, and capture
// towards the h-file.
#[derive(Clone, Copy)]
pub(crate) struct PawnMoves {
    pub(crate) once: SquareSet,
    pub(crate) twice: SquareSet,
    pub(crate) west: SquareSet,
    pub(crate) east: SquareSet,
}

// How far the index of a square grows from one rank to the next.
const RANK: u8 = 8;

// The squares from which so far forward lies a square of the set.
fn seen_ahead(set: SquareSet, color: Color, by: u8) -> SquareSet
    requires { by < 64 }
    ensures { (q : ℕ) → q < 64 → IsInside color by q → has result q ≡ has set (forward color by q) }
{
    match color {
        Color::White => SquareSet::of_bits(set.bits() >> by),
        Color::Black => SquareSet::of_bits(set.bits() << by),
    }
}

// The squares of the rank where the colour's pawns begin.
pub(crate) fn home(color: Color) -> SquareSet
    ensures { IsSetOf result (λ q. rank q ≡ home_rank color) }
{
    SquareSet::of_rank(home_rank(color))
}

fn empty_squares(board: &Board) -> SquareSet
    ensures { IsSetOf result (IsVacant board.now) }
{
    SquareSet::full() - board.occupied()
}

// From where the pawns go one square forward.
fn going_once(board: &Board, color: Color, pawns: SquareSet) -> SquareSet
    requires { AreInside color pawns }
    ensures { IsSetOf result (λ q. (has pawns q ≡ true) × IsVacant board.now (forward color one_rank q)) }
{
    pawns & seen_ahead(empty_squares(board), color, RANK)
}

// From where pawns that go one square forward may go two.
fn going_twice(board: &Board, color: Color, once: SquareSet) -> SquareSet
    requires { AreInside color once }
    ensures { IsSetOf result (λ q. ((has once q ≡ true) × (rank q ≡ home_rank color))
        × IsVacant board.now (forward color two_ranks q)) }
{
    (once & home(color)) & seen_ahead(empty_squares(board), color, 2 * RANK)
}

// From where a square of the goals lies so far forward.
fn aiming(pawns: SquareSet, color: Color, by: u8, goals: SquareSet) -> SquareSet
    requires inside { AreInside color pawns }
    requires near { by ≤ 16 }
    ensures { IsSetOf result (λ q. (has pawns q ≡ true) × (has goals (forward color by q) ≡ true)) }
{
    pawns & seen_ahead(goals, color, by)
}

// The goals where a man stands whom the colour may capture.
fn enemies_there(board: &Board, color: Color, goals: SquareSet) -> SquareSet
    ensures { IsSetOf result (λ q. IsEnemy board.now color q × (has goals q ≡ true)) }
{
    board.squares_of_color(color.other()) & goals
}

// How far a capture towards the a-file goes.
fn to_west(color: Color) -> u8
    ensures value { result ≡ to_west color }
    ensures bound { result ≤ 16 }
{
    match color {
        Color::White => RANK - 1,
        Color::Black => RANK + 1,
    }
}

// How far a capture towards the h-file goes.
fn to_east(color: Color) -> u8
    ensures value { result ≡ to_east color }
    ensures bound { result ≤ 16 }
{
    match color {
        Color::White => RANK + 1,
        Color::Black => RANK - 1,
    }
}

// The ways of the pawns on these squares to the goals.
#[inline(always)]
pub(crate) fn pawn_ways(
    board: &Board,
    color: Color,
    pawns: SquareSet,
    goals: SquareSet,
) -> PawnMoves
    requires { AreInside color pawns }
    ensures { AreWays board.now color pawns goals result }
{
    let once = going_once(board, color, pawns);
    let twice = going_twice(board, color, once);
    let enemies = enemies_there(board, color, goals);
    let west = pawns - SquareSet::of_file(1);
    let east = pawns - SquareSet::of_file(8);
    PawnMoves {
        once: aiming(once, color, RANK, goals),
        twice: aiming(twice, color, 2 * RANK, goals),
        west: aiming(west, color, to_west(color), enemies),
        east: aiming(east, color, to_east(color), enemies),
    }
}

impl PawnMoves {
    // How many there are.
    pub(crate) fn count(&self) -> u64
        ensures count { result ≡ total (moves_from self.now) 64 }
        ensures bound { result ≤ 256 }
    {
        let steps = self.once.len() as u64 + self.twice.len() as u64;
        let captures = self.west.len() as u64 + self.east.len() as u64;
        steps + captures
    }
}

// The squares from which a pawn of the side to move captures en passant, each of them and maybe more.
pub(crate) fn en_passant_sources(position: &Position) -> SquareSet
    ensures { (q s : ℕ) → q < 64 → s < 64 → CapturesEnPassant position.now q s → has result q ≡ true }
{
    match position.passed() {
        Some(square) => {
            let pawn = Man::new(position.side().other(), Kind::Pawn);
            attacks_from(&position.board(), pawn, square)
        }
        None => SquareSet::empty(),
    }
}

// Pawns of these, none of which may be pinned, that neither promote nor capture en passant: so they need no trial.
#[inline(always)]
pub(crate) fn quiet_pawns(player: &Player<'_>, guard: &Guard, left: SquareSet) -> SquareSet
    requires guards { GuardsOff player.now guard.now.pinned guard.now.goals }
    requires off { AreOff guard.now.pinned left }
    ensures quiet { (q : ℕ) → q < 64 → has result q ≡ true → IsQuiet player.now guard.now.goals q }
    ensures left { (q : ℕ) → q < 64 → has result q ≡ true → has left q ≡ true }
{
    let color = player.color();
    let pawns = left & player.board().squares_of(Man::new(color, Kind::Pawn));
    pawns - en_passant_sources(player.position()) - home(color.other())
}
