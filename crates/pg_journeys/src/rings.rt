//! Men whom paths reach, ring by ring: those whom no count reaches, those whom one reaches at most, and so on.
ghost use Rattle.std.specs.Prelude.{◌≡◌, ℕ, ◌+◌, ◌<◌, ◌≤◌, List, [], true, false, get_or, IfSome};
ghost use Rattle.pg_board.specs.Bits.{has};
ghost use Rattle.pg_board.specs.declared.man.Kind.{Kind as KindOfMan};
ghost use Rattle.pg_board.specs.declared.man.Kind.TheVariants.{Pawn};
ghost use Rattle.pg_captures.specs.FreeSteps.{Becomes};
ghost use Rattle.pg_journeys.specs.Known.{known};
ghost use Rattle.pg_journeys.specs.inner.Counts.{of_kind};
ghost use Rattle.pg_journeys.specs.inner.Grounds.{IsGround};
ghost use Rattle.pg_journeys.specs.inner.Fronts.{IsMeeting, NoneDue, HasAdvanced};
ghost use Rattle.pg_journeys.specs.inner.Levels.{FromSome, BackWithin, AheadStep, AheadWithin};
ghost use Rattle.pg_journeys.specs.inner.Rings.{AreRings, AreWithin, IsRing, TakesWithin};
ghost use Rattle.pg_journeys.specs.inner.Reached.{TakeStep, TakesOf, AreGrown, TakesAfter, IsReach};
ghost use Rattle.pg_journeys.specs.inner.Searches.{AreDueMet, IsBackBefore, IsBackAmid};
ghost use Rattle.pg_journeys.specs.inner.Searches.{IsAheadBefore, IsAheadAmid, AreTakenBefore, AreTakenAmid};

use crate::facts::rank_set;
use crate::fronts::{Front, Standing, join, meet_before, meet_pawns, only};
use crate::ground::Ground;
use pg_board::{Kind, Square, SquareSet};
use pg_position::last_rank;

// Men by kind whom paths reach, ring by ring: the first twelve rings, each with those before it.
#[derive(Clone, Copy)]
pub(crate) struct Rings {
    pub(crate) sets: [[SquareSet; 6]; 12],
    pub(crate) count: usize,
    pub(crate) is_whole: bool,
}

impl Rings {
    // One ring, of nobody.
    pub(crate) fn none() -> Rings
        ensures one { result.count ≡ 1 }
        ensures whole { result.is_whole ≡ true }
        ensures nobody { (k : KindOfMan) (s : ℕ) → s < 64 → has (of_kind (get_or result.sets 0 []) k) s ≡ false }
    {
        Rings {
            sets: [[SquareSet::empty(); 6]; 12],
            count: 1,
            is_whole: true,
        }
    }

    // Begins anew: no ring is kept yet.
    fn clear(&mut self)
        ensures none { self.new.count ≡ 0 }
        ensures open { self.new.is_whole ≡ false }
    {
        self.count = 0;
        self.is_whole = false;
    }

    // The ring that shows who is within a count: the one kept for it, or the last where they are whole.
    #[inline(always)]
    pub(crate) fn ring(&self, n: u8) -> Option<&[SquareSet; 6]>
        requires some { 1 ≤ self.now.count }
        requires few { self.now.count ≤ 12 }
        ensures { IfSome result (λ ring. IsRing self.now n ring.now) }
    {
        let at = usize::from(n);
        if at < self.count {
            return Some(&self.sets[at]);
        }
        if self.is_whole {
            return Some(&self.sets[self.count - 1]);
        }
        None
    }

    // Keeps one ring more.
    fn keep(&mut self, ring: [SquareSet; 6])
        requires { self.old.count < 12 }
        ensures more { self.new.count ≡ self.old.count + 1 }
        ensures here { get_or self.new.sets self.old.count [] ≡ ring }
        ensures before { (n : ℕ) → n < self.old.count → get_or self.new.sets n [] ≡ get_or self.old.sets n [] }
        ensures same { self.new.is_whole ≡ self.old.is_whole }
    {
        self.sets[self.count] = ring;
        self.count += 1;
    }
}

// What is reached from a man: where he stands, and where a step that may be a capture leads him from there.
#[derive(Clone, Copy)]
pub(crate) struct Reach {
    pub(crate) stands: Rings,
    pub(crate) taken: Rings,
}

impl Reach {
    // Nothing is reached.
    pub(crate) fn none() -> Reach
        ensures stands { result.stands.count ≡ 1 }
        ensures taken { result.taken.count ≡ 1 }
    {
        Reach {
            stands: Rings::none(),
            taken: Rings::none(),
        }
    }
}

// A man whose paths are followed: by a measure, his kind and his square.
#[derive(Clone, Copy)]
pub(crate) struct Runner {
    pub(crate) is_quiet: bool,
    pub(crate) kind: Kind,
    pub(crate) square: Square,
}

// No men of any kind.
fn nobody() -> [SquareSet; 6]
    ensures { (k : KindOfMan) (s : ℕ) → has (of_kind result k) s ≡ false }
{
    [SquareSet::empty(); 6]
}

// The men met so far.
fn met_of(front: &Front) -> [SquareSet; 6]
    ensures { result ≡ front.now.met }
{
    front.met
}

// Meets what one count more meets, at the count n. True where that is nobody new, and n is not 0.
fn is_idle(front: &mut Front, n: u8) -> bool
    ensures all { HasAdvanced front.old front.new }
    ensures some { result ≡ true → 0 < n }
    ensures idle { result ≡ true → NoneDue front.new }
{
    let is_some = front.advance();
    n > 0 && !is_some
}

// Looks at all who are due, backwards.
fn look_back(ground: &Ground, is_quiet: bool, front: &mut Front)
    requires sound { IsGround ground.now }
    requires ready { AreDueMet front.old }
    ensures { (goals : List ℕ) (n : ℕ)
        → IsBackAmid (known ground.now.facts) ground.now.color is_quiet goals n front.old
        → IsBackBefore (known ground.now.facts) ground.now.color is_quiet goals (n + 1) front.new }
{
    while let Some(men) = front.take_due() {
        meet_before(ground, is_quiet, men.kind, men.set, front);
    }
}

// Writes the rings of paths to one of these men, as far as `most`, or twelve. What is asked past these is searched
// anew.
pub(crate) fn rings_to(
    ground: &Ground,
    is_quiet: bool,
    goals: [SquareSet; 6],
    most: u8,
    rings: &mut Rings,
)
    requires sound { IsGround ground.now }
    requires low { most < 200 }
    ensures { AreRings (BackWithin (known ground.now.facts) ground.now.color is_quiet goals) rings.new }
{
    rings.clear();
    let mut front = Front::at(goals);
    for n in 0..=most.min(11) {
        if is_idle(&mut front, n) {
            rings.is_whole = true;
            break;
        }
        look_back(ground, is_quiet, &mut front);
        rings.keep(met_of(&front));
    }
}

// The men within a count of one of these, searched anew.
#[inline(never)]
pub(crate) fn met_within(
    ground: &Ground,
    is_quiet: bool,
    goals: &[SquareSet; 6],
    n: u8,
) -> [SquareSet; 6]
    requires sound { IsGround ground.now }
    requires low { n < 200 }
    ensures { AreWithin (BackWithin (known ground.now.facts) ground.now.color is_quiet goals.now) n result }
{
    let mut front = Front::at(*goals);
    for m in 0..=n {
        if is_idle(&mut front, m) {
            break;
        }
        look_back(ground, is_quiet, &mut front);
    }
    front.met
}

// Joins the captures of a pawn, as what he becomes by them.
fn take_by_pawn(ground: &Ground, set: SquareSet, taken: &mut [SquareSet; 6])
    ensures { AreGrown (λ j t. (has set t ≡ true) × Becomes ground.now.color Pawn t j) taken.old taken.new }
{
    let last = rank_set(last_rank(ground.color));
    let promoted = set & last;
    join(taken, Kind::Pawn, set - last);
    join(taken, Kind::Knight, promoted);
    join(taken, Kind::Bishop, promoted);
    join(taken, Kind::Rook, promoted);
    join(taken, Kind::Queen, promoted);
}

// Meets whom a step makes of one of these men, and joins whom steps of theirs that may be captures make of them.
fn step_ahead(
    ground: &Ground,
    is_quiet: bool,
    men: Standing,
    front: &mut Front,
    taken: &mut [SquareSet; 6],
)
    requires { IsGround ground.now }
    ensures met { IsMeeting (FromSome (AheadStep (known ground.now.facts) ground.now.color is_quiet men.kind) men.set)
        front.old front.new }
    ensures taken { AreGrown (TakesOf (TakeStep (known ground.now.facts) ground.now.color men.kind) men.set)
        taken.old taken.new }
{
    match men.kind {
        Kind::Pawn => {
            let captures = ground.captures_of(men.set);
            take_by_pawn(ground, captures, taken);
            meet_pawns(ground, ground.pushes_of(men.set), true, front);
            meet_pawns(ground, captures, !is_quiet, front);
        }
        _ => {
            let steps = ground.steps_of(men.kind, men.set);
            let captures = steps & ground.lands();
            join(taken, men.kind, captures);
            front.meet(men.kind, captures, !is_quiet);
            front.meet(men.kind, steps - captures, true);
        }
    }
}

// Looks at all who are due, onwards.
fn look_ahead(ground: &Ground, is_quiet: bool, front: &mut Front, taken: &mut [SquareSet; 6])
    requires sound { IsGround ground.now }
    requires ready { AreDueMet front.old }
    ensures { (k : KindOfMan) (s n : ℕ) → s < 64
        → IsAheadAmid (known ground.now.facts) ground.now.color is_quiet k s n front.old
        → AreTakenAmid (known ground.now.facts) ground.now.color is_quiet k s n front.old taken.old
        → IsAheadBefore (known ground.now.facts) ground.now.color is_quiet k s (n + 1) front.new
        × AreTakenBefore (known ground.now.facts) ground.now.color is_quiet k s (n + 1) front.new taken.new }
{
    while let Some(men) = front.take_due() {
        step_ahead(ground, is_quiet, men, front, taken);
    }
}

// Writes what is reached from a man on a square, as far as `most`, or twelve rings.
pub(crate) fn reach_of(ground: &Ground, man: &Runner, most: u8, reach: &mut Reach)
    requires sound { IsGround ground.now }
    requires low { most < 200 }
    ensures { IsReach (known ground.now.facts) ground.now.color man.now reach.new }
{
    man.square.index();
    reach.stands.clear();
    reach.taken.clear();
    let mut front = Front::at(only(man.kind, SquareSet::single(man.square)));
    let mut taken = nobody();
    for n in 0..=most.min(11) {
        if is_idle(&mut front, n) {
            reach.stands.is_whole = true;
            reach.taken.is_whole = true;
            break;
        }
        look_ahead(ground, man.is_quiet, &mut front, &mut taken);
        reach.stands.keep(met_of(&front));
        reach.taken.keep(taken);
    }
}

// Who the man is within a count, and by `taken` where a step that may be a capture leads him from there, searched
// anew.
#[inline(never)]
fn followed(ground: &Ground, man: &Runner, n: u8, taken: &mut [SquareSet; 6]) -> [SquareSet; 6]
    requires sound { IsGround ground.now }
    requires low { n < 200 }
    requires empty { (k : KindOfMan) (s : ℕ) → has (of_kind taken.old k) s ≡ false }
    ensures stands { AreWithin (AheadWithin (known ground.now.facts) ground.now.color man.now.is_quiet man.now.kind
        man.now.square) n result }
    ensures taken { AreWithin (TakesAfter (known ground.now.facts) ground.now.color man.now.is_quiet man.now.kind
        man.now.square) n taken.new }
{
    man.square.index();
    let mut front = Front::at(only(man.kind, SquareSet::single(man.square)));
    for m in 0..=n {
        if is_idle(&mut front, m) {
            break;
        }
        look_ahead(ground, man.is_quiet, &mut front, taken);
    }
    front.met
}

// Who the man is within a count, searched anew.
#[inline(never)]
fn stood_within(ground: &Ground, man: &Runner, n: u8) -> [SquareSet; 6]
    requires sound { IsGround ground.now }
    requires low { n < 200 }
    ensures { AreWithin (AheadWithin (known ground.now.facts) ground.now.color man.now.is_quiet man.now.kind
        man.now.square) n result }
{
    let mut taken = nobody();
    followed(ground, man, n, &mut taken)
}

// Where a step that may be a capture leads the man from where he is within a count, searched anew.
#[inline(never)]
fn led_after(ground: &Ground, man: &Runner, n: u8) -> [SquareSet; 6]
    requires sound { IsGround ground.now }
    requires low { n < 200 }
    ensures { AreWithin (TakesAfter (known ground.now.facts) ground.now.color man.now.is_quiet man.now.kind
        man.now.square) n result }
{
    let mut taken = nobody();
    followed(ground, man, n, &mut taken);
    taken
}

// Who the man is within a count: of the ring where it is kept, of the last where they are whole, else searched.
#[inline(always)]
pub(crate) fn stands_within(ground: &Ground, man: &Runner, reach: &Reach, n: u8) -> [SquareSet; 6]
    requires sound { IsGround ground.now }
    requires low { n < 200 }
    requires reach { IsReach (known ground.now.facts) ground.now.color man.now reach.now }
    ensures { AreWithin (AheadWithin (known ground.now.facts) ground.now.color man.now.is_quiet man.now.kind
        man.now.square) n result }
{
    match reach.stands.ring(n) {
        Some(ring) => *ring,
        None => stood_within(ground, man, n),
    }
}

// Where a step that may be a capture leads the man from where he is within a count, in the same way.
#[inline(always)]
fn taken_after(ground: &Ground, man: &Runner, reach: &Reach, n: u8) -> [SquareSet; 6]
    requires sound { IsGround ground.now }
    requires low { n < 200 }
    requires reach { IsReach (known ground.now.facts) ground.now.color man.now reach.now }
    ensures { AreWithin (TakesAfter (known ground.now.facts) ground.now.color man.now.is_quiet man.now.kind
        man.now.square) n result }
{
    match reach.taken.ring(n) {
        Some(ring) => *ring,
        None => led_after(ground, man, n),
    }
}

// Whom a path within a count makes of the man if its last step may be a capture.
#[inline(always)]
pub(crate) fn takes_within(ground: &Ground, man: &Runner, reach: &Reach, n: u8) -> [SquareSet; 6]
    requires sound { IsGround ground.now }
    requires low { n < 200 }
    requires reach { IsReach (known ground.now.facts) ground.now.color man.now reach.now }
    ensures { AreWithin (TakesWithin (known ground.now.facts) ground.now.color man.now.is_quiet man.now.kind
        man.now.square) n result }
{
    if man.is_quiet {
        return taken_after(ground, man, reach, n);
    }
    if n == 0 {
        return nobody();
    }
    taken_after(ground, man, reach, n - 1)
}
