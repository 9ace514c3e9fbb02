//! What follows from the plans of a way by a measure: where captures may land, where men may be captured, and who may
//! change.
ghost use Rattle.std.specs.Prelude.{◌≡◌, ℕ, ◌<◌, ◌≤◌, ◌↔◌, ◌⊎◌, IsTrue, true, false, get_or, ◌≢◌};
ghost use Rattle.pg_board.specs.Bits.{has};
ghost use Rattle.pg_board.specs.Men.{other};
ghost use Rattle.pg_board.specs.declared.man.Kind.TheVariants.{Pawn};
ghost use Rattle.pg_board.specs.SquareSets.{IsSetOf};
ghost use Rattle.pg_journeys.specs.Known.{landing};
ghost use Rattle.pg_journeys.specs.inner.Reached.{IsReach};
ghost use Rattle.pg_journeys.specs.inner.Showing.{HasRooms};
ghost use Rattle.pg_journeys.specs.inner.Sides.{facts_of, IsEnd, AreAims};
ghost use Rattle.pg_journeys.specs.inner.Deeds.{HasDeeds};
ghost use Rattle.pg_journeys.specs.inner.Narrowed.{IsInBoth, AreEnds, TakesTo, TakesToSome, StandsBy, FallsBy, ComesBy};
ghost use Rattle.pg_journeys.specs.inner.Narrowed.{TakesBack, ComesBack, ChangesBy, IsFull};

use crate::measured::Measured;
use crate::plans::{Aims, Walker, aim_within, man_of, passed_square};
use crate::rings::{Reach, Runner, reach_of, stands_within, takes_within};
use crate::rooms::Rooms;
use crate::side::Side;
use pg_board::{Kind, SquareSet};
use pg_position::Wing;

// What the plans of a way have by a measure: the squares where captures of the colour land and where its men are
// captured, and for each man the ends by which he changes, a bit for each man of the diagram and the seventeenth for
// being captured.
#[derive(Clone, Copy)]
pub(crate) struct Deeds {
    pub(crate) lands: SquareSet,
    pub(crate) falls: SquareSet,
    pub(crate) ends: [u32; 16],
}

// The squares that two sets have as some kind.
fn in_both(one: &[SquareSet; 6], other: &[SquareSet; 6]) -> SquareSet
    ensures { IsSetOf result (IsInBoth one.now other.now) }
{
    let mut all = SquareSet::empty();
    for k in 0..6usize {
        all = all | (one[k] & other[k]);
    }
    all
}

// A room, or less if by more no step that may be a capture leads a man to other squares.
fn last_taking(reach: &Reach, room: u8) -> u8
    requires { reach.now.taken.count ≤ 12 }
    ensures low { result ≤ room }
    ensures last { (result ≡ room) ⊎ ((reach.now.taken.is_whole ≡ true) × (result ≡ reach.now.taken.count)) }
{
    if reach.taken.is_whole && reach.taken.count < usize::from(room) {
        return reach.taken.count as u8;
    }
    room
}

// The squares where captures of a man land on his way to an end, within a room.
fn lands_to(side: &Side, man: &Runner, reach: &Reach, aims: &Aims, e: usize, room: u8) -> SquareSet
    requires end { IsEnd side.now e }
    requires low { room < 200 }
    requires reach { IsReach (facts_of side.now) side.now.terrain.color man.now reach.now }
    requires aims { AreAims side.now man.now.is_quiet aims.now }
    ensures { IsSetOf result (TakesTo side.now man.now e room) }
{
    let mut all = SquareSet::empty();
    let last = last_taking(reach, room);
    for i in 0..last + 1 {
        let taken = takes_within(&side.terrain, man, reach, i);
        let rest = aim_within(side, man.is_quiet, aims, e, room - i);
        all = all | in_both(&taken, &rest);
    }
    all
}

// With the squares where captures of a man land on his way to any end, within his rooms.
fn lands_of(
    side: &Side,
    man: &Runner,
    reach: &Reach,
    aims: &Aims,
    rooms: &[u8; 17],
    lands: SquareSet,
) -> SquareSet
    requires ends { AreEnds side.now rooms.now }
    requires reach { IsReach (facts_of side.now) side.now.terrain.color man.now reach.now }
    requires aims { AreAims side.now man.now.is_quiet aims.now }
    ensures { IsSetOf result (λ q. (has lands q ≡ true) ⊎ TakesToSome side.now man.now rooms.now q) }
{
    let mut all = lands;
    for e in 0..17usize {
        if rooms[e] < 255 {
            all = all | lands_to(side, man, reach, aims, e, rooms[e]);
        }
    }
    all
}

// With the squares where a man comes within a room and may be captured.
fn add_falls(side: &Side, man: &Runner, reach: &Reach, room: u8, falls: SquareSet) -> SquareSet
    requires low { room < 200 }
    requires reach { IsReach (facts_of side.now) side.now.terrain.color man.now reach.now }
    ensures { IsSetOf result (λ q. (has falls q ≡ true) ⊎ StandsBy side.now man.now room q) }
{
    let stands = stands_within(&side.terrain, man, reach, room);
    falls | in_both(&stands, &[side.terrain.theirs(); 6])
}

// With the squares where a man may be captured within a room.
fn falls_of(side: &Side, man: &Walker, reach: &Reach, room: u8, falls: SquareSet) -> SquareSet
    requires low { room < 255 → room < 200 }
    requires reach { IsReach (facts_of side.now) side.now.terrain.color man.now.runner reach.now }
    ensures { IsSetOf result (λ q. (has falls q ≡ true) ⊎ FallsBy side.now man.now room q) }
{
    if room == 255 {
        return falls;
    }
    let all = add_falls(side, &man.runner, reach, room, falls);
    match passed_square(side, man.square) {
        None => all,
        Some(passed) => all | SquareSet::single(passed),
    }
}

// Whether a man on some square of a set is within `n` counts of an end.
fn comes_by(side: &Side, man: &Runner, aims: &Aims, e: usize, n: u8, set: SquareSet) -> bool
    requires end { IsEnd side.now e }
    requires low { n < 200 }
    requires aims { AreAims side.now man.now.is_quiet aims.now }
    ensures { IsTrue result ↔ ComesBy side.now man.now e n set }
{
    let within = aim_within(side, man.is_quiet, aims, e, n);
    within[usize::from(man.kind.number())].meets(set)
}

// Whether in quiet moves a man's step from among these that may be a capture leads on to an end within a room.
fn takes_back(side: &Side, man: &Runner, aims: &Aims, e: usize, room: u8, steps: SquareSet) -> bool
    requires end { IsEnd side.now e }
    requires low { room < 200 }
    requires aims { AreAims side.now man.now.is_quiet aims.now }
    ensures { IsTrue result ↔ TakesBack side.now man.now e room steps }
{
    if !man.is_quiet {
        return false;
    }
    comes_by(side, man, aims, e, room, steps & side.terrain.lands())
}

// Whether a man, no pawn, may take a step and go on to an end within a room.
fn comes_back(side: &Side, man: &Runner, aims: &Aims, e: usize, room: u8) -> bool
    requires piece { man.now.kind ≢ Pawn }
    requires end { IsEnd side.now e }
    requires low { room < 200 }
    requires aims { AreAims side.now man.now.is_quiet aims.now }
    ensures { IsTrue result ↔ ComesBack side.now man.now e room }
{
    let steps = side.terrain.steps(man.kind, man.square);
    if takes_back(side, man, aims, e, room, steps) {
        return true;
    }
    if room == 0 {
        return false;
    }
    comes_by(side, man, aims, e, room - 1, steps)
}

// Whether a man changes on his way to an end within a room: not where he stays.
fn changes(side: &Side, man: &Walker, aims: &Aims, e: usize, room: u8) -> bool
    requires end { IsEnd side.now e }
    requires low { room < 200 }
    requires aims { AreAims side.now man.now.runner.is_quiet aims.now }
    ensures { IsTrue result ↔ ChangesBy side.now man.now e room }
{
    if e == 16 {
        true
    } else if side.goals.squares[e] != man.square || side.goals.kinds[e] != man.runner.kind {
        true
    } else if man.runner.kind == Kind::Pawn {
        false
    } else {
        comes_back(side, &man.runner, aims, e, room)
    }
}

// Whether there is a room, and a man changes on his way to an end within it.
fn is_end(side: &Side, man: &Walker, aims: &Aims, e: usize, room: u8) -> bool
    requires end { room < 255 → (room < 200) × IsEnd side.now e }
    requires aims { AreAims side.now man.now.runner.is_quiet aims.now }
    ensures { IsTrue result ↔ ((room < 255) × ChangesBy side.now man.now e room) }
{
    room < 255 && changes(side, man, aims, e, room)
}

// With the bit of an end, if it is one.
fn with_end(ends: u32, e: usize, is_end: bool) -> u32
    requires { e < 32 }
    ensures { (n : ℕ) → (has result n ≡ true) ↔ ((has ends n ≡ true) ⊎ ((n ≡ e) × (is_end ≡ true))) }
{
    if is_end { ends | (1u32 << e) } else { ends }
}

// The ends by which a man changes within his rooms.
fn ends_of(side: &Side, man: &Walker, aims: &Aims, rooms: &[u8; 17]) -> u32
    requires ends { AreEnds side.now rooms.now }
    requires aims { AreAims side.now man.now.runner.is_quiet aims.now }
    ensures { (e : ℕ) → e < 17 → (has result e ≡ true) ↔
        ((get_or rooms.now e 0 < 255) × ChangesBy side.now man.now e (get_or rooms.now e 0)) }
{
    let mut ends = 0u32;
    for e in 0..side.goals.count {
        ends = with_end(ends, e, is_end(side, man, aims, e, rooms[e]));
    }
    with_end(ends, 16, is_end(side, man, aims, 16, rooms[16]))
}

// The greater of a room and what is no room, 255, or one.
fn wider(most: u8, room: u8) -> u8
    ensures above { most ≤ result }
    ensures over { room < 255 → room ≤ result }
    ensures low { (n : ℕ) → most ≤ n → (room < 255 → room ≤ n) → result ≤ n }
{
    if room < 255 && room > most {
        room
    } else {
        most
    }
}

// The greatest room of a man; 0 where he has none.
fn widest(rooms: &[u8; 17]) -> u8
    ensures above { (e : ℕ) → e < 17 → get_or rooms.now e 0 < 255 → get_or rooms.now e 0 ≤ result }
    ensures low { (n : ℕ) →
        ((e : ℕ) → e < 17 → get_or rooms.now e 0 < 255 → get_or rooms.now e 0 ≤ n) → result ≤ n }
{
    let mut most = 0u8;
    for e in 0..17usize {
        most = wider(most, rooms[e]);
    }
    most
}

// Whether a man who changes by these ends may capture, or be captured within a room, on a square that was not found
// yet. Where not, his paths tell nothing new; most men change by no end, so that comes first.
fn may_find(side: &Side, ends: u32, room: u8, lands: SquareSet, falls: SquareSet) -> bool
    ensures lands { result ≡ false →
        (ends ≡ 0) ⊎ IsFull (landing side.now.terrain.facts side.now.terrain.color) lands }
    ensures falls { result ≡ false → room < 255 →
        (ends ≡ 0) ⊎ IsFull (landing side.now.terrain.facts (other side.now.terrain.color)) falls }
{
    if ends == 0 {
        return false;
    }
    let new_lands = side.terrain.lands() - lands;
    let new_falls = side.terrain.theirs() - falls;
    !new_lands.is_empty() || (room < 255 && !new_falls.is_empty())
}

// Squares where captures of a colour land and where its men are captured.
#[derive(Clone, Copy)]
pub(crate) struct Found {
    pub(crate) lands: SquareSet,
    pub(crate) falls: SquareSet,
}

impl Found {
    // No squares.
    pub(crate) fn none() -> Found
        ensures lands { (q : ℕ) → has result.lands q ≡ false }
        ensures falls { (q : ℕ) → has result.falls q ≡ false }
    {
        Found {
            lands: SquareSet::empty(),
            falls: SquareSet::empty(),
        }
    }
}

// What the plans of a way have by a measure, and what was found before.
pub(crate) fn deeds_of(
    measured: &Measured<'_>,
    way: Option<Wing>,
    rooms: &Rooms,
    found: Found,
) -> Deeds
    requires { HasRooms measured.now.side.now measured.now.is_quiet way measured.now.most rooms.now }
    ensures { HasDeeds measured.now.side.now measured.now.is_quiet way measured.now.most
        found.lands found.falls result }
{
    let (side, aims) = (measured.side, measured.paths());
    let mut lands = found.lands;
    let mut falls = found.falls;
    let mut ends = [0u32; 16];
    let mut reach = Reach::none();
    for i in 0..side.men.count {
        let man = man_of(side, measured.is_quiet, way, i);
        let own = ends_of(side, &man, aims, &rooms[i]);
        ends[i] = own;
        if may_find(side, own, rooms[i][16], lands, falls) {
            reach_of(&side.terrain, &man.runner, widest(&rooms[i]), &mut reach);
            lands = lands_of(side, &man.runner, &reach, aims, &rooms[i], lands);
            falls = falls_of(side, &man, &reach, rooms[i][16], falls);
        }
    }
    Deeds { lands, falls, ends }
}
