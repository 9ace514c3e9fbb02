//! The squares that the move which a text names may leave.
ghost use Rattle.std.specs.Prelude.{◌≡◌, ℕ, ◌<◌, IfSome, true};
ghost use Rattle.pg_board.specs.Bits.{has};
ghost use Rattle.pg_board.specs.Squares.{file, rank};
ghost use Rattle.pg_board.specs.declared.man.Kind.{Kind};
ghost use Rattle.pg_position.specs.declared.moves.Move.{Move};
ghost use Rattle.pg_position.specs.Position.{Stands};
ghost use Rattle.pg_san.specs.Matching.{FitsCore};
ghost use Rattle.pg_san.specs.inner.Walk.{HoldsSources};

use crate::cores::Core;
use crate::said::{Form, Said};
use pg_board::{Board, Color, Kind, Man, SquareSet};
use pg_position::Position;

// The squares of each file, 1 to 8: none has the number 0.
static FILES: [u64; 9] = [
    0,
    0x0101_0101_0101_0101,
    0x0202_0202_0202_0202,
    0x0404_0404_0404_0404,
    0x0808_0808_0808_0808,
    0x1010_1010_1010_1010,
    0x2020_2020_2020_2020,
    0x4040_4040_4040_4040,
    0x8080_8080_8080_8080,
];

// The squares of each rank, 1 to 8: none has the number 0.
static RANKS: [u64; 9] = [
    0,
    0x0000_0000_0000_00ff,
    0x0000_0000_0000_ff00,
    0x0000_0000_00ff_0000,
    0x0000_0000_ff00_0000,
    0x0000_00ff_0000_0000,
    0x0000_ff00_0000_0000,
    0x00ff_0000_0000_0000,
    0xff00_0000_0000_0000,
];

// The squares of the file with this number.

fn file_squares(number: u8) -> SquareSet
    ensures { (q : ℕ) → q < 64 → file q ≡ number → has result q ≡ true }
{
    if number < 9 {
        SquareSet::of_bits(FILES[number as usize])
    } else {
        SquareSet::empty()
    }
}

// The squares of the rank with this number.

fn rank_squares(number: u8) -> SquareSet
    ensures { (q : ℕ) → q < 64 → rank q ≡ number → has result q ≡ true }
{
    if number < 9 {
        SquareSet::of_bits(RANKS[number as usize])
    } else {
        SquareSet::empty()
    }
}

// The squares of the file that is said, or all.
fn on_file(said: Option<u8>) -> SquareSet
    ensures { (q : ℕ) → q < 64 → IfSome said (λ f. file q ≡ f) → has result q ≡ true }
{
    match said {
        Some(file) => file_squares(file),
        None => SquareSet::full(),
    }
}

// The squares of the rank that is said, or all.
fn on_rank(said: Option<u8>) -> SquareSet
    ensures { (q : ℕ) → q < 64 → IfSome said (λ r. rank q ≡ r) → has result q ≡ true }
{
    match said {
        Some(rank) => rank_squares(rank),
        None => SquareSet::full(),
    }
}

// The squares of the colour's men of the kind that is said, or of all its men.
fn of_kind(board: &Board, color: Color, said: Option<Kind>) -> SquareSet
    ensures { (k : Kind) (q : ℕ) → q < 64 → IfSome said (λ j. j ≡ k) → Stands board.now color k q
        → has result q ≡ true }
{
    match said {
        Some(kind) => board.squares_of(Man::new(color, kind)),
        None => board.squares_of_color(color),
    }
}

fn sources_of_core(position: &Position, core: &Core) -> SquareSet
    ensures { (k : Kind) (n : Move) → n.from < 64 → Stands position.now.board position.now.side k n.from
        → FitsCore position.now core.now k n → has result n.from ≡ true }
{
    let men = of_kind(&position.board(), position.side(), core.kind);
    men & on_file(core.file) & on_rank(core.rank)
}

// The squares of the men that the text may mean: each move that is as it says leaves one of them.
pub(crate) fn sources_of(position: &Position, said: &Said) -> SquareSet
    ensures { HoldsSources position.now said.now result }
{
    match &said.form {
        Form::Castles(_) => of_kind(&position.board(), position.side(), Some(Kind::King)),
        Form::Moves(core) => sources_of_core(position, core),
    }
}
