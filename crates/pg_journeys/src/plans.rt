//! Plans of a colour: what the fates of its men count, and which ways its plies pay for.
ghost use Rattle.std.specs.Prelude.{◌≡◌, ℕ, Bool, Some, None, false, ◌+◌, ◌-◌, ◌<◌, ◌≤◌, ◌↔◌, IsTrue, IfSome, IfNone};
ghost use Rattle.std.specs.Prelude.{true, get_or};
ghost use Rattle.pg_board.specs.Bits.{has};
ghost use Rattle.pg_board.specs.declared.man.Kind.{Kind as KindOfMan};
ghost use Rattle.pg_board.specs.Men.{number_of_kind, other};
ghost use Rattle.pg_board.specs.SquareSets.{IsSetOf};
ghost use Rattle.pg_board.specs.Placement.{Placement};
ghost use Rattle.pg_captures.specs.Owed.{plies_left, victims};
ghost use Rattle.pg_travel.specs.Origins.{charge as charge_of, counted as counted_on};
ghost use Rattle.pg_journeys.specs.Journeys.{HasPassed, IsWayUnder};
ghost use Rattle.pg_journeys.specs.Known.{known, landing};
ghost use Rattle.pg_journeys.specs.inner.Grounds.{IsGround};
ghost use Rattle.pg_journeys.specs.inner.Levels.{BackWithin};
ghost use Rattle.pg_journeys.specs.inner.Rings.{AreRings, AreWithin};
ghost use Rattle.pg_journeys.specs.inner.Costing.{IsOnSpan, InRing, IsCountTo, IsFall, IsCostRow, AreCostRows};
ghost use Rattle.pg_journeys.specs.inner.Costing.{AreCostsOf, HasTotalTo, walker_of, MayBeIn};
ghost use Rattle.pg_journeys.specs.declared.side.Side.{Side as SideOf};
ghost use Rattle.pg_journeys.specs.inner.Deeds.{IsPaidFor};
ghost use Rattle.pg_journeys.specs.inner.SideParts.{HaveSquares};
ghost use Rattle.pg_journeys.specs.inner.Sides.{IsSide, IsLike, IsEnd, EndWithin, AreAims};

use crate::facts::Facts;
use crate::fronts::only;
use crate::ground::Ground;
use crate::measured::Measured;
use crate::men::Men;
use crate::rings::{Rings, Runner, met_within, rings_to};
use crate::scene::Scene;
use crate::side::Side;
use pg_assignments::{Costs, least_total};
use pg_board::{Color, Kind, Square, SquareSet};
use pg_captures::{plies_left, victims_of};
use pg_fen::Diagram;
use pg_position::{Position, Wing, ahead, king_crossed, king_home, king_target, rook_home};

// For each man of the diagram, and last for where a man may be captured, the rings of the paths to it.
pub(crate) type Aims = [Rings; 17];

// A man of a side: where he stands, and as whom a way counts him by a measure.
#[derive(Clone, Copy)]
pub(crate) struct Walker {
    pub(crate) square: Square,
    pub(crate) runner: Runner,
}

// The men whom the paths to an end lead to be, for each side of this ground and these men of the diagram.
fn end_goals(ground: &Ground, goals: &Men, e: usize) -> [SquareSet; 6]
    requires { HaveSquares goals.now }
    ensures { (x : SideOf) → IsLike x ground.now goals.now → IsEnd x e →
        (quiet : Bool) (n : ℕ) (k : KindOfMan) (s : ℕ) →
        BackWithin (known ground.now.facts) ground.now.color quiet result n k s ↔ EndWithin x quiet e n k s }
{
    if e < goals.count {
        only(goals.kinds[e], SquareSet::single(goals.squares[e]))
    } else {
        [ground.theirs(); 6]
    }
}

// Writes the rings of the paths to an end, as far as `most`.
fn aim(ground: &Ground, goals: &Men, is_quiet: bool, most: u8, e: usize, rings: &mut Rings)
    requires sound { IsGround ground.now }
    requires goals { HaveSquares goals.now }
    requires low { most < 200 }
    ensures { (x : SideOf) → IsLike x ground.now goals.now → IsEnd x e → AreRings (EndWithin x is_quiet e) rings.new }
{
    rings_to(ground, is_quiet, end_goals(ground, goals, e), most, rings);
}

// Writes the rings of the paths to each of these men, and to being captured if that is asked, as far as `most`.
pub(crate) fn fill_ends(
    ground: &Ground,
    goals: &Men,
    with_fall: bool,
    is_quiet: bool,
    most: u8,
    aims: &mut Aims,
)
    requires sound { IsGround ground.now }
    requires goals { HaveSquares goals.now }
    requires low { most < 200 }
    ensures { (x : SideOf) → IsLike x ground.now goals.now → (x.goals.count < x.men.count → with_fall ≡ true) →
        AreAims x is_quiet aims.new }
{
    for e in 0..goals.count {
        aim(ground, goals, is_quiet, most, e, &mut aims[e]);
    }
    if with_fall {
        aim(ground, goals, is_quiet, most, 16, &mut aims[16]);
    }
}

// Writes the rings of the paths to each end of a side, as far as `most`.
pub(crate) fn fill_aims(side: &Side, is_quiet: bool, most: u8, aims: &mut Aims)
    requires low { most < 200 }
    ensures { AreAims side.now is_quiet aims.new }
{
    let with_fall = side.goals.count < side.men.count;
    fill_ends(&side.terrain, &side.goals, with_fall, is_quiet, most, aims);
}

// The men whom a path of at most `n` counts leads to an end, searched anew.
#[inline(never)]
fn aim_anew(side: &Side, is_quiet: bool, e: usize, n: u8) -> [SquareSet; 6]
    requires end { IsEnd side.now e }
    requires low { n < 200 }
    ensures { AreWithin (EndWithin side.now is_quiet e) n result }
{
    let goals = end_goals(&side.terrain, &side.goals, e);
    met_within(&side.terrain, is_quiet, &goals, n)
}

// The men whom a path of at most `n` counts leads to an end: of the ring that shows them, else searched.
#[inline(always)]
pub(crate) fn aim_within(
    side: &Side,
    is_quiet: bool,
    aims: &Aims,
    e: usize,
    n: u8,
) -> [SquareSet; 6]
    requires end { IsEnd side.now e }
    requires low { n < 200 }
    requires aims { AreAims side.now is_quiet aims.now }
    ensures { AreWithin (EndWithin side.now is_quiet e) n result }
{
    match aims[e].ring(n) {
        Some(ring) => *ring,
        None => aim_anew(side, is_quiet, e, n),
    }
}

// Whether a path of at most `n` counts leads a man to an end.
fn comes_within(side: &Side, aims: &Aims, e: usize, man: &Runner, n: u8) -> bool
    requires end { IsEnd side.now e }
    requires low { n < 200 }
    requires aims { AreAims side.now man.now.is_quiet aims.now }
    ensures { IsTrue result ↔ EndWithin side.now man.now.is_quiet e n man.now.kind man.now.square }
{
    let within = aim_within(side, man.is_quiet, aims, e, n);
    within[usize::from(man.kind.number())].contains(man.square)
}

// What a path of a man to an end counts at least, by asking for one count after the other.
#[inline(never)]
fn count_by_asking(side: &Side, aims: &Aims, most: u8, e: usize, man: &Runner) -> u8
    requires end { IsEnd side.now e }
    requires low { most < 200 }
    requires aims { AreAims side.now man.now.is_quiet aims.now }
    ensures { IsCountTo side.now most e man.now result }
{
    if !comes_within(side, aims, e, man, most) {
        return 255;
    }
    for n in 0..most {
        if comes_within(side, aims, e, man, n) {
            return n;
        }
    }
    most
}

// Whether a ring has a man.
fn has_man(rings: &Rings, man: &Runner, n: usize) -> bool
    requires { n < 12 }
    ensures { IsTrue result ↔ InRing rings.now man.now n }
{
    rings.sets[n][usize::from(man.kind.number())].contains(man.square)
}

// Whether no ring has a man, kept or not.
fn is_out(rings: &Rings, man: &Runner) -> bool
    requires some { 1 ≤ rings.now.count }
    requires few { rings.now.count ≤ 12 }
    ensures { IsTrue result → (rings.now.is_whole ≡ true) × (InRing rings.now man.now (rings.now.count - 1) → ⊥) }
{
    rings.is_whole && !has_man(rings, man, rings.count - 1)
}

// The first ring that is kept and has a man; how many are kept where none has.
fn first_ring(rings: &Rings, man: &Runner) -> usize
    requires { rings.now.count ≤ 12 }
    ensures low { result ≤ rings.now.count }
    ensures here { result < rings.now.count → InRing rings.now man.now result }
    ensures before { (n : ℕ) → n < result → InRing rings.now man.now n → ⊥ }
{
    for n in 0..rings.count {
        if has_man(rings, man, n) {
            return n;
        }
    }
    rings.count
}

// What a path of a man to an end counts at least, if that is at most `most`; 255 for none.
fn count_to(side: &Side, aims: &Aims, most: u8, e: usize, man: &Runner) -> u8
    requires end { IsEnd side.now e }
    requires low { most < 200 }
    requires aims { AreAims side.now man.now.is_quiet aims.now }
    ensures { IsCountTo side.now most e man.now result }
{
    man.square.index();
    let rings = &aims[e];
    if is_out(rings, man) {
        return 255;
    }
    let first = first_ring(rings, man);
    if first > usize::from(most) {
        return 255;
    }
    if first >= rings.count {
        return count_by_asking(side, aims, most, e, man);
    }
    first as u8
}

/// Where a way counts the man on a square: the king and the rook of a castling on their castled squares.
pub fn counted(color: Color, way: Option<Wing>, origin: Square) -> Square
    ensures { result ≡ counted_on color way origin }
{
    match way {
        None => origin,
        Some(wing) => {
            if origin == king_home(color) {
                king_target(color, wing)
            } else if origin == rook_home(color, wing) {
                king_crossed(color, wing)
            } else {
                origin
            }
        }
    }
}

/// What a way counts beside the paths: one for a castling.
pub fn charge(way: Option<Wing>) -> u8
    ensures value { result ≡ charge_of way }
    ensures low { result ≤ 1 }
{
    match way {
        None => 0,
        Some(_) => 1,
    }
}

// The square that the man on a square has just passed, where he may be captured by a move to it.
pub(crate) fn passed_square(side: &Side, square: Square) -> Option<Square>
    ensures some { IfSome result (λ u. HasPassed side.now.position side.now.terrain.color square u
        × (u < 64) × (has (landing side.now.terrain.facts (other side.now.terrain.color)) u ≡ true)) }
    ensures none { IfNone result ((u : ℕ) → HasPassed side.now.position side.now.terrain.color square u →
        has (landing side.now.terrain.facts (other side.now.terrain.color)) u ≡ false) }
{
    match side.position.passed() {
        None => None,
        Some(passed) => {
            let color = side.terrain.color;
            if side.position.side() != color
                && side.terrain.theirs().contains(passed)
                && square == ahead(color, 1, passed)
            {
                Some(passed)
            } else {
                None
            }
        }
    }
}

// A man of a side by his number, as a way counts him.
pub(crate) fn man_of(side: &Side, is_quiet: bool, way: Option<Wing>, i: usize) -> Walker
    requires { i < 16 }
    ensures { result ≡ walker_of side.now is_quiet way i }
{
    let square = side.men.squares[i];
    Walker {
        square,
        runner: Runner {
            is_quiet,
            kind: side.men.kinds[i],
            square: counted(side.terrain.color, way, square),
        },
    }
}

// The kinds that a man of a kind may come to be, a bit for each number: a pawn any but a king, any other man his own.
fn kinds_of(kind: Kind) -> u64
    ensures { MayBeIn kind result }
{
    match kind {
        Kind::Pawn => 0b01_1111,
        Kind::Knight => 0b00_0010,
        Kind::Bishop => 0b00_0100,
        Kind::Rook => 0b00_1000,
        Kind::Queen => 0b01_0000,
        Kind::King => 0b10_0000,
    }
}

// Whether a kind is among these.
fn is_among(kinds: u64, kind: Kind) -> bool
    ensures { result ≡ has kinds (number_of_kind kind) }
{
    (kinds >> kind.number()) & 1 == 1
}

// What a path of a man to be a man of the diagram counts at least, if that is at most `most`; 255 for none. Most pairs
// are of kinds that tell it.
fn arrival(side: &Side, aims: &Aims, most: u8, e: usize, man: &Runner, kinds: u64) -> u8
    requires goal { e < side.now.goals.count }
    requires low { most < 200 }
    requires aims { AreAims side.now man.now.is_quiet aims.now }
    requires kinds { MayBeIn man.now.kind kinds }
    ensures { IsCountTo side.now most e man.now result }
{
    let goal = side.goals.kinds[e];
    if !is_among(kinds, goal) {
        return 255;
    }
    count_to(side, aims, most, e, man)
}

// What it counts at least that a man is captured; 255 for none. A king never is, and who has just passed a square takes
// no step.
fn fall(side: &Side, aims: &Aims, most: u8, man: &Walker) -> u8
    requires more { side.now.goals.count < side.now.men.count }
    requires low { most < 200 }
    requires aims { AreAims side.now man.now.runner.is_quiet aims.now }
    ensures { IsFall side.now most man.now result }
{
    if man.runner.kind == Kind::King {
        return 255;
    }
    match passed_square(side, man.square) {
        Some(_) => 0,
        None => count_to(side, aims, most, 16, &man.runner),
    }
}

// A row with this number for each column past the men of the diagram.
fn with_falls(side: &Side, row: [u8; 16], fall: u8) -> [u8; 16]
    requires few { side.now.men.count ≤ 16 }
    ensures kept { (j : ℕ) → j < side.now.goals.count → get_or result j 0 ≡ get_or row j 0 }
    ensures falls { (j : ℕ) → side.now.goals.count ≤ j → j < side.now.men.count → get_or result j 0 ≡ fall }
{
    let mut all = row;
    for k in side.goals.count..side.men.count {
        all[k] = fall;
    }
    all
}

// What each fate of a man counts at least: to become each man of the diagram, and then to be captured.
fn row(side: &Side, aims: &Aims, most: u8, man: &Walker) -> [u8; 16]
    requires low { most < 200 }
    requires aims { AreAims side.now man.now.runner.is_quiet aims.now }
    ensures { IsCostRow side.now most man.now result side.now.men.count }
{
    let mut row = [255u8; 16];
    let kinds = kinds_of(man.runner.kind);
    for j in 0..side.goals.count {
        row[j] = arrival(side, aims, most, j, &man.runner, kinds);
    }
    if side.goals.count < side.men.count {
        let fall = fall(side, aims, most, man);
        return with_falls(side, row, fall);
    }
    row
}

// What the fates of all men count where none castles.
pub(crate) fn first_costs(side: &Side, is_quiet: bool, aims: &Aims, most: u8) -> Costs
    requires low { most < 200 }
    requires aims { AreAims side.now is_quiet aims.now }
    ensures size { result.size ≡ side.now.men.count }
    ensures rows { AreCostRows side.now is_quiet None most result.rows side.now.men.count }
{
    let mut rows = [[255u8; 16]; 16];
    for i in 0..side.men.count {
        let man = man_of(side, is_quiet, None, i);
        rows[i] = row(side, aims, most, &man);
    }
    Costs {
        size: side.men.count,
        rows,
    }
}

// What the fates of a man count in a way: as where none castles, if he does not.
fn row_in(measured: &Measured<'_>, way: Option<Wing>, i: usize) -> [u8; 16]
    requires { i < measured.now.side.now.men.count }
    ensures { IsCostRow measured.now.side.now measured.now.most
        (walker_of measured.now.side.now measured.now.is_quiet way i) result measured.now.side.now.men.count }
{
    let rows = measured.first_rows();
    let man = man_of(measured.side, measured.is_quiet, way, i);
    if man.runner.square == man.square {
        return rows[i];
    }
    row(measured.side, measured.paths(), measured.most, &man)
}

// What the fates of all men count in a way, man by man.
fn costs_by_rows(measured: &Measured<'_>, way: Option<Wing>) -> Costs
    ensures size { result.size ≡ measured.now.side.now.men.count }
    ensures costs { (d : Placement) → IsSide d measured.now.side.now →
        AreCostsOf d measured.now.side.now measured.now.is_quiet way measured.now.most result }
{
    let mut rows = [[255u8; 16]; 16];
    for i in 0..measured.side.men.count {
        rows[i] = row_in(measured, way, i);
    }
    Costs {
        size: measured.side.men.count,
        rows,
    }
}

// What the fates of all men count in a way.
pub(crate) fn costs_in(measured: &Measured<'_>, way: Option<Wing>) -> Costs
    ensures size { result.size ≡ measured.now.side.now.men.count }
    ensures costs { (d : Placement) → IsSide d measured.now.side.now →
        AreCostsOf d measured.now.side.now measured.now.is_quiet way measured.now.most result }
{
    match way {
        None => measured.costs,
        Some(_) => costs_by_rows(measured, way),
    }
}

/// The squares from the king to the rook before they castle.
pub fn span(color: Color, wing: Wing) -> SquareSet
    ensures { IsSetOf result (IsOnSpan color wing) }
{
    match (color, wing) {
        (Color::White, Wing::KingSide) => SquareSet::of_bits(0x0000_0000_0000_00f0),
        (Color::White, Wing::QueenSide) => SquareSet::of_bits(0x0000_0000_0000_001f),
        (Color::Black, Wing::KingSide) => SquareSet::of_bits(0xf000_0000_0000_0000),
        (Color::Black, Wing::QueenSide) => SquareSet::of_bits(0x1f00_0000_0000_0000),
    }
}

// Whether a way is open under facts.
pub(crate) fn is_way(position: &Scene, facts: &Facts, color: Color, way: Option<Wing>) -> bool
    ensures { IsTrue result ↔ IsWayUnder (known facts.now) position.now color way }
{
    match way {
        None => true,
        Some(wing) => position.rights().holds(color, wing) && !facts.still.meets(span(color, wing)),
    }
}

// What paths may count: the plies of a colour, in quiet moves less the captures that it owes; none where that is below
// 0.
pub(crate) fn budget(
    diagram: &Diagram,
    position: &Position,
    color: Color,
    left: u8,
    is_quiet: bool,
) -> Option<u8>
    ensures moves { is_quiet ≡ false → result ≡ Some (plies_left position.now.side color left) }
    ensures quiet { is_quiet ≡ true → IfSome result (λ n. n + victims color position.now.board ≡
        plies_left position.now.side color left + victims color diagram.now) }
    ensures none { IfNone result (plies_left position.now.side color left + victims color diagram.now
        < victims color position.now.board) }
    ensures low { IfSome result (λ n. n < 200) }
{
    let plies = plies_left(position.side(), color, left);
    if is_quiet {
        let here = victims_of(&position.board(), color);
        let there = victims_of(&diagram.board(), color);
        (plies + there).checked_sub(here)
    } else {
        Some(plies)
    }
}

// Whether some assignment by these costs is within a budget.
fn pays(costs: &Costs, most: u8) -> bool
    requires { costs.now.size ≤ 16 }
    ensures { IsTrue result ↔ HasTotalTo costs.now most }
{
    match least_total(costs) {
        None => false,
        Some(total) => total <= u16::from(most),
    }
}

// Whether what is measured pays for a plan by this way.
pub(crate) fn is_paid(measured: &Measured<'_>, way: Option<Wing>) -> bool
    ensures { IsPaidFor measured.now.side.now measured.now.is_quiet way measured.now.most result }
{
    let charge = charge(way);
    if charge > measured.most {
        false
    } else {
        pays(&costs_in(measured, way), measured.most - charge)
    }
}
