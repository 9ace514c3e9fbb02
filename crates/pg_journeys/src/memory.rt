//! What the plans of colours have shown, and tables of steps: remembered for when the same is asked again.
ghost use Rattle.std.specs.Prelude.{◌≡◌, ℕ, ◌<◌, ◌↔◌, IsTrue, IfSome, IfNone, IfOk, Some, All, true, false};
ghost use Rattle.pg_board.specs.Bits.{has};
ghost use Rattle.pg_board.specs.Men.{other};
ghost use Rattle.pg_board.specs.Placement.{Placement};
ghost use Rattle.pg_board.specs.declared.man.Kind.{Kind as KindOfMan};
ghost use Rattle.pg_position.specs.Position.{Stands, holds};
ghost use Rattle.pg_position.specs.Squares.{ahead};
ghost use Rattle.pg_position.specs.declared.rights.Wing.{Wing as AnyWing};
ghost use Rattle.pg_captures.specs.Counting.{men};
ghost use Rattle.pg_captures.specs.Owed.{plies_left as plies_of, victims};
ghost use Rattle.pg_journeys.specs.Journeys.{HasPassed};
ghost use Rattle.pg_journeys.specs.Known.{landing};
ghost use Rattle.pg_journeys.specs.Rounds.{JourneysHold};
ghost use Rattle.pg_journeys.specs.inner.Grounds.{HasSteps};
ghost use Rattle.pg_journeys.specs.inner.Courses.{IsShownOn};
ghost use Rattle.pg_journeys.specs.inner.Remembering.{AreAlike, IsAnswer, IsRemembered};

use crate::course::Course;
use crate::facts::Facts;
use crate::ground::steps_table;
use crate::known::{FirstAims, same_color};
use crate::round::Round;
use crate::rounds::facts_by;
use crate::shown::{Shown, shown_of};
use crate::steps::Steps;
use pg_board::{Color, Square, SquareSet};
use pg_captures::{plies_left, victims_of};
use pg_fen::Diagram;
use pg_position::{Position, Wing};
use std::alloc::{AllocError, Global};
use std::marker::Model;

// For how many cases there is room at first, and at most: a power of two.
const FIRST_CASES: usize = 16_384;

const MOST_CASES: usize = 65_536;

// How many places a case may have, one behind another: a power of two.
const PLACES: usize = 8;

// After how many calls it is seen whether room is wanted, and by how many places.
const CALLS: u32 = 256;

const SEEN: usize = 1024;

// How many tables of steps are remembered at most.
const MOST_TABLES: usize = 64;

// What is asked of a colour: what its plans show in `left` plies from a position, under facts.
#[derive(Clone, Copy)]
pub(crate) struct Case {
    pub(crate) position: Position,
    pub(crate) left: u8,
    pub(crate) facts: Facts,
    pub(crate) color: Color,
}

// A case, and what its plans show, none where no way is alive. Where it is not told it says nothing.
#[derive(Clone, Copy)]
pub(crate) struct Remembered {
    pub(crate) case: Case,
    pub(crate) shown: Option<Shown>,
    pub(crate) is_told: bool,
}

// What says nothing.
fn nothing() -> Remembered
    ensures { result.is_told ≡ false }
{
    let none = SquareSet::empty();
    Remembered {
        case: Case {
            position: Position::array(),
            left: 0,
            facts: Facts {
                still: none,
                white: none,
                black: none,
            },
            color: Color::White,
        },
        shown: None,
        is_told: false,
    }
}

// The square that a pawn of the colour has just passed, if captures of the other colour may land there.
fn passed_in(case: &Case) -> Option<Square>
    ensures { (s u : ℕ) → has (landing case.now.facts (other case.now.color)) u ≡ true →
        HasPassed case.now.position case.now.color s u ↔ ((result ≡ Some u) × (s ≡ ahead case.now.color 1 u)) }
{
    match case.position.passed() {
        None => None,
        Some(passed) => {
            if case.position.side() != case.color
                && case.facts.lands(case.color.other()).contains(passed)
            {
                Some(passed)
            } else {
                None
            }
        }
    }
}

// Whether the colour of one case has the same men in both.
fn same_own(one: &Case, another: &Case) -> bool
    ensures { IsTrue result → (k : KindOfMan) (s : ℕ) → s < 64 →
        Stands one.now.position.board one.now.color k s ↔ Stands another.now.position.board one.now.color k s }
{
    let here = one.position.board();
    let there = another.position.board();
    let own = here.squares_of_color(one.color) | there.squares_of_color(one.color);
    !own.meets(here.differing(&there))
}

// Whether the colour of one case has the same rights in both.
fn same_rights(one: &Case, another: &Case) -> bool
    ensures { IsTrue result → (w : AnyWing) →
        holds one.now.position.rights one.now.color w ≡ holds another.now.position.rights one.now.color w }
{
    let here = one.position.rights();
    let there = another.position.rights();
    here.holds(one.color, Wing::KingSide) == there.holds(one.color, Wing::KingSide)
        && here.holds(one.color, Wing::QueenSide) == there.holds(one.color, Wing::QueenSide)
}

// Whether the colour of one case has as many plies in both, and as many men to capture.
fn same_means(one: &Case, another: &Case) -> bool
    ensures plies { IsTrue result → plies_of one.now.position.side one.now.color one.now.left
        ≡ plies_of another.now.position.side one.now.color another.now.left }
    ensures victims { IsTrue result →
        victims one.now.color one.now.position.board ≡ victims one.now.color another.now.position.board }
{
    plies_left(one.position.side(), one.color, one.left)
        == plies_left(another.position.side(), one.color, another.left)
        && victims_of(&one.position.board(), one.color)
            == victims_of(&another.position.board(), one.color)
}

// Whether both are the same square, or none.
fn same_square(one: Option<Square>, another: Option<Square>) -> bool
    ensures { IsTrue result → one ≡ another }
{
    one == another
}

// Whether two cases of one colour under the same facts are the same for it.
fn same_part(one: &Case, another: &Case) -> bool
    ensures { IsTrue result → one.now.color ≡ another.now.color → one.now.facts ≡ another.now.facts →
        AreAlike one.now another.now }
{
    if !same_square(passed_in(one), passed_in(another)) {
        return false;
    }
    if !same_own(one, another) {
        return false;
    }
    if !same_rights(one, another) {
        return false;
    }
    same_means(one, another)
}

// Whether two cases are alike: they show the same.
fn are_alike(one: &Case, another: &Case) -> bool
    ensures { IsTrue result → AreAlike one.now another.now }
{
    if !same_color(one.color, another.color) {
        return false;
    }
    if one.facts == another.facts {
        return same_part(one, another);
    }
    false
}

// Whether what is remembered is told of a case that is alike.
fn tells(kept: &Remembered, case: &Case) -> bool
    ensures { IsTrue result → (kept.now.is_told ≡ true) × AreAlike kept.now.case case.now }
{
    kept.is_told && are_alike(&kept.case, case)
}

// The first of the places where a case may be remembered, in room for this many.
fn first_place(case: &Case, room: usize) -> usize {
    let own = case.position.board().squares_of_color(case.color).bits();
    let facts = case.facts.still.bits()
        ^ case.facts.white.bits().rotate_left(21)
        ^ case.facts.black.bits().rotate_left(42);
    let plies = plies_left(case.position.side(), case.color, case.left);
    let number = own.wrapping_mul(0xff51_afd7_ed55_8ccd)
        ^ facts.wrapping_mul(0xc4ce_b9fe_1a85_ec53)
        ^ u64::from(plies).wrapping_mul(0x9e37_79b9_7f4a_7c15);
    // Once more, so that the highest squares tell in all of the bits that are taken.
    let mixed = (number ^ number >> 32).wrapping_mul(0xff51_afd7_ed55_8ccd);
    (mixed >> 40) as usize & room.wrapping_sub(1) & !(PLACES - 1)
}

// What is remembered at a place of a case that is alike.
fn recall_at<'a>(shown: &'a [Remembered], place: usize, case: &Case) -> Option<&'a Remembered>
    ensures { (d : Placement) → All (IsRemembered d) shown.now →
        IfSome result (λ r. IsAnswer d case.now r.now.shown) }
{
    if place < shown.len() && tells(&shown[place], case) {
        return Some(&shown[place]);
    }
    None
}

// What is remembered of a case that is alike.
fn recall<'a>(shown: &'a [Remembered], case: &Case) -> Option<&'a Remembered>
    ensures { (d : Placement) → All (IsRemembered d) shown.now →
        IfSome result (λ r. IsAnswer d case.now r.now.shown) }
{
    let first = first_place(case, shown.len());
    for i in 0..PLACES {
        if let Some(kept) = recall_at(shown, first | i, case) {
            return Some(kept);
        }
    }
    None
}

// The first of the places of a case that says nothing, or else the first.
fn place_for(shown: &[Remembered], case: &Case) -> usize {
    let first = first_place(case, shown.len());
    for i in 0..PLACES {
        let place = first | i;
        if place < shown.len() && !shown[place].is_told {
            return place;
        }
    }
    first
}

// Remembers what a case shows at one of its places, if there is one, in the place of what was remembered there.
fn remember(shown: &mut [Remembered], case: &Case, answer: &Option<Shown>)
    ensures { (d : Placement) → All (IsRemembered d) shown.old → IsAnswer d case.now answer.now →
        All (IsRemembered d) shown.new }
{
    let place = place_for(shown, case);
    if place < shown.len() {
        shown[place] = Remembered {
            case: *case,
            shown: *answer,
            is_told: true,
        };
    }
}

// What the plans of a colour show, as `shown_of` has it: as it is remembered, or found and remembered.
pub(crate) fn shown_in(
    shown: &mut [Remembered],
    course: &Course<'_>,
    round: &Round<'_>,
    color: Color,
) -> Option<Shown>
    requires { All (IsRemembered course.now.diagram.now) shown.old }
    ensures answer { IsShownOn course.now round.now.facts color result }
    ensures remembered { All (IsRemembered course.now.diagram.now) shown.new }
{
    let case = Case {
        position: *course.position,
        left: course.left,
        facts: round.facts,
        color,
    };
    if let Some(kept) = recall(shown, &case) {
        return kept.shown;
    }
    let answer = shown_of(course, round, color);
    remember(shown, &case, &answer);
    answer
}

// The place where a table is remembered.
fn place_of_steps(still: SquareSet) -> usize {
    (still.bits().wrapping_mul(0xff51_afd7_ed55_8ccd) >> 58) as usize % MOST_TABLES
}

// The table of steps that is remembered at a place, where these squares are still.
fn find_steps(steps: &[Steps], place: usize, still: SquareSet) -> Option<&Steps>
    ensures { IfSome result (λ kept. HasSteps still kept.now.table) }
{
    if place < steps.len() && steps[place].still == still {
        return Some(&steps[place]);
    }
    None
}

// Remembers a table at a place, if there is one, in the place of what was remembered there.
fn remember_steps(steps: &mut [Steps], place: usize, found: &Steps) {
    if place < steps.len() {
        steps[place] = *found;
    }
}

// The steps where these squares are still.
fn steps_of(still: SquareSet) -> Steps
    ensures { result.still ≡ still }
{
    Steps {
        still,
        table: steps_table(still),
    }
}

// The table of steps where these squares are still: as it is remembered, or made and remembered.
pub(crate) fn steps_in(steps: &mut [Steps], still: SquareSet) -> [SquareSet; 384]
    ensures { HasSteps still result }
{
    let place = place_of_steps(still);
    if let Some(kept) = find_steps(steps, place, still) {
        return kept.table;
    }
    let found = steps_of(still);
    remember_steps(steps, place, &found);
    found.table
}

// Room for `count` cases, of which none is told yet.
#[tactic(auto, using(crate::proofs::MemoryLemmas::all_untold))]
fn room_for_cases(alloc: Global, count: usize) -> Result<Vec<Remembered>, AllocError>
    ensures { IfOk result (λ room. (d : Placement) → All (IsRemembered d) room.items) }
{
    // For the borrow checker, which wants the types told.
    let _none: Option<Shown> = None;
    let _nowhere: Option<Square> = None;
    let room = Vec::from_elem(alloc, nothing(), count)?;
    Ok(room)
}

// Whether about half of the room for cases is taken, by the first of its places.
fn is_half_taken(shown: &[Remembered]) -> bool {
    let mut taken = 0usize;
    for kept in shown.iter().take(SEEN) {
        if kept.is_told {
            taken = taken.saturating_add(1);
        }
    }
    taken >= SEEN / 2
}

// Remembers all that is remembered elsewhere, as far as there is room.
fn remember_all(shown: &mut [Remembered], others: &[Remembered])
    ensures { (d : Placement) → All (IsRemembered d) shown.old → All (IsRemembered d) others.now →
        All (IsRemembered d) shown.new }
{
    for other in others {
        if other.is_told {
            remember(shown, &other.case, &other.shown);
        }
    }
}

// The same cases in twice the room.
fn in_twice_the_room(alloc: Global, shown: &[Remembered]) -> Result<Vec<Remembered>, AllocError>
    ensures { IfOk result (λ room. (d : Placement) → All (IsRemembered d) shown.now →
        All (IsRemembered d) room.items) }
{
    let mut room = room_for_cases(alloc, shown.len().saturating_mul(2))?;
    remember_all(room.as_mut_slice(), shown);
    Ok(room)
}

// Makes twice the room for cases where about half of it is taken and more may be had; where memory is refused it stays.
// Looks after it at one call of many.
fn make_room(alloc: Global, calls: u32, shown: &mut Vec<Remembered>)
    ensures { (d : Placement) → All (IsRemembered d) shown.old.items → All (IsRemembered d) shown.new.items }
{
    if calls % CALLS != 0 || shown.len() >= MOST_CASES || !is_half_taken(shown.as_slice()) {
        return;
    }
    if let Ok(room) = in_twice_the_room(alloc, shown.as_slice()) {
        *shown = room;
    }
}

// Room for tables, each of which is the one where no square is still.
fn room_for_steps(alloc: Global) -> Result<Vec<Steps>, AllocError> {
    let steps = steps_of(SquareSet::empty());
    // For the borrow checker, which wants the type of squares told.
    let _first: SquareSet = steps.table[0];
    let room = Vec::from_elem(alloc, steps, MOST_TABLES)?;
    Ok(room)
}

/// What the plans of colours showed in positions on the way to a diagram, and where men step, for a bound that is asked
/// of one position after the other: some 3 MB at first, and up to 12 MB as more is shown. Contracts see it as the
/// placement of the diagram. What is remembered changes no answer: it is used where a colour has the same men, rights,
/// plies and captures to make, under the same facts.
#[derive(Drop)]
pub struct Memory {
    alloc: Global,
    calls: u32,
    diagram: Diagram,
    shown: Vec<Remembered>,
    steps: Vec<Steps>,
}

impl Model for Memory {
    ghost use Rattle.std.specs.Prelude.{All};
    ghost use Rattle.pg_board.specs.Placement.{Placement};
    ghost use Rattle.pg_board.specs.lemmas.Codes.{placement_code};
    ghost use Rattle.pg_journeys.specs.inner.Remembering.{IsRemembered};

    ghost Value = { Placement };

    ghost coded = { placement_code };

    ghost view = { λ m. m.diagram };

    ghost invariant = { λ m. All (IsRemembered m.diagram) m.shown.items };
}

impl Memory {
    /// A memory of nothing, for the way to a diagram. What it takes is taken from `alloc`, also where it grows; where
    /// that is refused, it goes on with what it has.
    ///
    /// # Errors
    /// Where memory is refused.
    pub fn new(alloc: Global, diagram: &Diagram) -> Result<Memory, AllocError>
        ensures { IfOk result (λ memory. memory ≡ diagram.now) }
    {
        let shown = room_for_cases(alloc, FIRST_CASES)?;
        let steps = room_for_steps(alloc)?;
        Ok(Memory {
            alloc,
            calls: 0,
            diagram: *diagram,
            shown,
            steps,
        })
    }

    // The facts of the last round, as `facts_by` has them: by what is remembered where it is of this diagram.
    pub(crate) fn facts(
        &mut self,
        aims: &FirstAims,
        diagram: &Diagram,
        position: &Position,
        left: u8,
    ) -> Option<Facts>
        ensures some { IfSome result (λ f. ¬ JourneysHold diagram.now position.now left) }
        ensures none { IfNone result (JourneysHold diagram.now position.now left) }
    {
        if self.diagram != *diagram {
            return facts_by(diagram, position, left, aims.known(), &mut [], &mut []);
        }
        self.calls = self.calls.wrapping_add(1);
        make_room(self.alloc, self.calls, &mut self.shown);
        facts_by(
            diagram,
            position,
            left,
            aims.known(),
            self.shown.as_mut_slice(),
            self.steps.as_mut_slice(),
        )
    }
}
