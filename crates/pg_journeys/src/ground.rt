//! The ground of a colour's steps under facts: what stops them, where its captures may land, and tables of steps.
ghost use Rattle.std.specs.Prelude.{◌≡◌, ◌≢◌, ℕ, ◌<◌, ◌↔◌, false, Some, None};
ghost use Rattle.pg_board.specs.Bits.{has};
ghost use Rattle.pg_board.specs.Placement.{get};
ghost use Rattle.pg_board.specs.Squares.{file};
ghost use Rattle.pg_board.specs.SquareSets.{IsSetOf};
ghost use Rattle.pg_position.specs.Geometry.{InPattern};
ghost use Rattle.pg_board.specs.Men.{other};
ghost use Rattle.pg_board.specs.declared.man.Kind.TheVariants.{Pawn};
ghost use Rattle.pg_journeys.specs.Facts.{Facts as KnownFacts};
ghost use Rattle.pg_journeys.specs.Journeys.{IsLeg};
ghost use Rattle.pg_journeys.specs.Known.{known, landing};
ghost use Rattle.pg_journeys.specs.lemmas.Turns.{leg};
ghost use Rattle.pg_journeys.specs.inner.Grounds.{IsTable, HasSteps, IsGround, LedTo, Pushes, Captures};
ghost use Rattle.pg_journeys.specs.inner.Makings.{AreQueens, IsFilled, IsAheadOf, IsEastOf, IsWestOf};

use crate::facts::{Facts, rank_set};
use pg_board::{Board, Color, Kind, Man, Square, SquareSet};
use pg_position::{attacks_from, home_rank};

/// What the steps of a colour's men go by under facts: the squares that are not still, and for each kind but a pawn the
/// steps from each square, at 64 times the kind's number and the square's index.
#[derive(Drop)]
pub struct Ground {
    pub facts: Facts,
    pub color: Color,
    pub free: SquareSet,
    pub table: [SquareSet; 384],
}

// A board with a man on each square of a set.
fn blocked(set: SquareSet) -> Board
    ensures { (s : ℕ) → s < 64 → (get result s ≡ None) ↔ (has set s ≡ false) }
{
    let mut board = Board::empty();
    let mut left = set;
    while let Some(square) = left.pop_first() {
        board.put(square, Man::new(Color::White, Kind::Pawn));
    }
    board
}

// Writes the steps from each open square for men of a kind.
fn fill_kind(table: &mut [SquareSet; 384], blocks: &Board, free: SquareSet, kind: Kind)
    ensures { IsFilled blocks.now free kind table.old table.new }
{
    let mut left = free;
    while let Some(square) = left.pop_first() {
        let place = usize::from(kind.number()) * 64 + usize::from(square.index());
        table[place] = attacks_from(blocks, Man::new(Color::White, kind), square) & free;
    }
}

// Writes the steps of queens: those of bishops and of rooks.
fn fill_queens(table: &mut [SquareSet; 384])
    ensures { AreQueens table.old table.new }
{
    for at in 0..64usize {
        table[256 + at] = table[128 + at] | table[192 + at];
    }
}

/// The steps of each kind but a pawn from each square, where these squares are still.
pub fn steps_table(still: SquareSet) -> [SquareSet; 384]
    ensures { (f : KnownFacts) (c : Color) → ((s : ℕ) → s < 64 → f.still s ≡ has still s) → IsTable f c result }
{
    let blocks = blocked(still);
    let free = SquareSet::full() - still;
    let mut table = [SquareSet::empty(); 384];
    fill_kind(&mut table, &blocks, free, Kind::Knight);
    fill_kind(&mut table, &blocks, free, Kind::Bishop);
    fill_kind(&mut table, &blocks, free, Kind::Rook);
    fill_queens(&mut table);
    fill_kind(&mut table, &blocks, free, Kind::King);
    table
}

/// The ground of a colour under facts, with the table of steps there, which is the same for both colours.
pub fn ground_of(facts: &Facts, color: Color, table: &[SquareSet; 384]) -> Ground
    requires { HasSteps facts.now.still table.now }
    ensures sound { IsGround result }
    ensures facts { result.facts ≡ facts.now }
    ensures color { result.color ≡ color }
    ensures table { result.table ≡ table.now }
{
    Ground {
        facts: *facts,
        color,
        free: SquareSet::full() - facts.still,
        table: *table,
    }
}

// The free squares one rank ahead of those of a set, as a colour sees it.
fn ahead_of(color: Color, set: SquareSet, free: SquareSet) -> SquareSet
    ensures { IsSetOf result (IsAheadOf color set free) }
{
    match color {
        Color::White => SquareSet::of_bits(set.bits() << 8) & free,
        Color::Black => SquareSet::of_bits(set.bits() >> 8) & free,
    }
}

// The squares of the a-file.
fn first_file() -> SquareSet
    ensures { IsSetOf result (λ s. file s ≡ 1) }
{
    SquareSet::of_bits(0x0101_0101_0101_0101)
}

// The squares of the h-file.
fn last_file() -> SquareSet
    ensures { IsSetOf result (λ s. file s ≡ 8) }
{
    SquareSet::of_bits(0x8080_8080_8080_8080)
}

// The squares next to those of a set, towards the h-file.
fn east_of(set: SquareSet) -> SquareSet
    ensures { IsSetOf result (IsEastOf set) }
{
    let moved = SquareSet::of_bits(set.bits() << 1);
    moved - first_file()
}

// The squares next to those of a set, towards the a-file.
fn west_of(set: SquareSet) -> SquareSet
    ensures { IsSetOf result (IsWestOf set) }
{
    let moved = SquareSet::of_bits(set.bits() >> 1);
    moved - last_file()
}

// The squares that pawns of a colour on the squares of a set strike.
fn struck_by(color: Color, set: SquareSet) -> SquareSet
    ensures { IsSetOf result (LedTo (λ r s. InPattern color Pawn r s) set) }
{
    let ahead = ahead_of(color, set, SquareSet::full());
    east_of(ahead) | west_of(ahead)
}

impl Ground {
    // Where captures of the colour may land.
    pub(crate) fn lands(&self) -> SquareSet
        ensures { result ≡ landing self.now.facts self.now.color }
    {
        self.facts.lands(self.color)
    }

    // Where captures of the other colour may land.
    pub(crate) fn theirs(&self) -> SquareSet
        ensures { result ≡ landing self.now.facts (other self.now.color) }
    {
        self.facts.lands(self.color.other())
    }

    /// Where a man of this kind, no pawn, may step from a square.
    pub fn steps(&self, kind: Kind, square: Square) -> SquareSet
        requires sound { IsGround self.now }
        requires piece { kind ≢ Pawn }
        ensures { IsSetOf result (λ s. IsLeg (known self.now.facts) self.now.color (leg kind square kind s)) }
    {
        self.table[usize::from(kind.number()) * 64 + usize::from(square.index())]
    }

    // Where men of this kind, no pawns, may step from the squares of a set.
    pub(crate) fn steps_of(&self, kind: Kind, set: SquareSet) -> SquareSet
        requires sound { IsGround self.now }
        requires piece { kind ≢ Pawn }
        ensures { IsSetOf result (LedTo (λ r s. IsLeg (known self.now.facts) self.now.color (leg kind r kind s)) set) }
    {
        let mut left = set;
        let mut steps = SquareSet::empty();
        while let Some(square) = left.pop_first() {
            steps = steps | self.steps(kind, square);
        }
        steps
    }

    /// Where pawns on the squares of a set may step straight ahead.
    pub fn pushes_of(&self, set: SquareSet) -> SquareSet
        requires { IsGround self.now }
        ensures { IsSetOf result (LedTo (Pushes (known self.now.facts) self.now.color) set) }
    {
        let from = set & self.free;
        let once = ahead_of(self.color, from, self.free);
        let homed = from & rank_set(home_rank(self.color));
        let crossed = ahead_of(self.color, homed, self.free);
        let twice = ahead_of(self.color, crossed, self.free);
        once | twice
    }

    /// Where pawns on the squares of a set may step by a capture.
    pub fn captures_of(&self, set: SquareSet) -> SquareSet
        requires { IsGround self.now }
        ensures { IsSetOf result (LedTo (Captures (known self.now.facts) self.now.color) set) }
    {
        let from = set & self.free;
        let struck = struck_by(self.color, from);
        let kept = struck & self.free;
        kept & self.lands()
    }

    // From where a pawn may step straight ahead to some square of a set.
    pub(crate) fn pushed_to(&self, set: SquareSet) -> SquareSet
        requires { IsGround self.now }
        ensures { IsSetOf result (LedTo (λ s r. Pushes (known self.now.facts) self.now.color r s) set) }
    {
        let back = self.color.other();
        let to = set & self.free;
        let once = ahead_of(back, to, self.free);
        let twice = ahead_of(back, once, self.free);
        let homed = twice & rank_set(home_rank(self.color));
        once | homed
    }

    // From where a pawn may step by a capture to some square of a set.
    pub(crate) fn captured_to(&self, set: SquareSet) -> SquareSet
        requires { IsGround self.now }
        ensures { IsSetOf result (LedTo (λ s r. Captures (known self.now.facts) self.now.color r s) set) }
    {
        let free = set & self.free;
        let to = free & self.lands();
        let struck = struck_by(self.color.other(), to);
        struck & self.free
    }
}
