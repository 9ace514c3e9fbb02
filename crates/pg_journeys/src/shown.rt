//! What the plans of a colour show under facts: who may change, where captures land and where men are captured.
ghost use Rattle.std.specs.Prelude.{◌≡◌, ℕ, ◌<◌, ◌≤◌, ◌↔◌, IsTrue, IfSome, IfNone, MatchOption, Option, Some, List};
ghost use Rattle.std.specs.Prelude.{◌∷◌, true, false};
ghost use Rattle.pg_board.specs.SquareSets.{HasNoneFrom, IsSetOf};
ghost use Rattle.pg_board.specs.Placement.{Placement};
ghost use Rattle.pg_board.specs.Bits.{has};
ghost use Rattle.pg_board.specs.declared.man.Color.{Color as AnyColor};
ghost use Rattle.pg_position.specs.declared.rights.Wing.{Wing as AnyWing};
ghost use Rattle.pg_position.specs.declared.state.State.{State};
ghost use Rattle.pg_captures.specs.Counting.{men, any_man};
ghost use Rattle.pg_journeys.specs.Facts.{Facts as GameFacts};
ghost use Rattle.pg_journeys.specs.Journeys.{HasPassed};
ghost use Rattle.pg_journeys.specs.Known.{known, landing};
ghost use Rattle.pg_journeys.specs.Plans.{QuietMoves};
ghost use Rattle.pg_journeys.specs.inner.Courses.{IsDeadOn, IsShownOn};
ghost use Rattle.pg_journeys.specs.inner.Grounds.{HasSteps};
ghost use Rattle.pg_journeys.specs.inner.Resting.{AreResting, lifted, lifted_from};
ghost use Rattle.pg_journeys.specs.inner.Sides.{facts_of, square_at, AreAims, IsSide};
ghost use Rattle.pg_journeys.specs.inner.Showing.{MayChange, ArePaired, IsOneMeasure, IsBudget, AreBudgets, IsShownBy};
ghost use Rattle.pg_journeys.specs.inner.Showing.{IsAliveFor, ShowsWayFor, ShowsAmongFor};
ghost use Rattle.pg_journeys.specs.inner.Showing.{ShowsNone, IsJoined, IsDead, Shows};

use crate::course::Course;
use crate::facts::Facts;
use crate::ground::{ground_of, steps_table};
use crate::known::known_for;
use crate::known_paths::KnownPaths;
use crate::measured::Measured;
use crate::men::{Men, men_without};
use crate::narrowing::{Deeds, Found, deeds_of};
use crate::plans::{Aims, counted, fill_aims, first_costs, is_paid, is_way};
use crate::rings::Rings;
use crate::rooms::rooms_of;
use crate::round::Round;
use crate::scene::Scene;
use crate::side::Side;
use crate::spending::{Budgets, budgets_of};
use pg_board::{Color, SquareSet};
use pg_fen::Diagram;
use pg_position::{Position, Wing, ahead};

// What the plans of a colour show: who changes in one, and by each measure where captures land and men are captured.
#[derive(Clone, Copy)]
pub(crate) struct Shown {
    pub(crate) changed: SquareSet,
    pub(crate) lands: SquareSet,
    pub(crate) quiet_lands: SquareSet,
    pub(crate) falls: SquareSet,
    pub(crate) quiet_falls: SquareSet,
}

impl Shown {
    // Nobody, and no square.
    fn none() -> Shown
        ensures { ShowsNone result }
    {
        let none = SquareSet::empty();
        Shown {
            changed: none,
            lands: none,
            quiet_lands: none,
            falls: none,
            quiet_falls: none,
        }
    }
}

// Whether a man may change: he starts elsewhere, or by both measures he changes by some one end.
fn may_change(
    color: Color,
    own: &Men,
    way: Option<Wing>,
    moves: &Deeds,
    quiet: &Deeds,
    i: usize,
) -> bool
    requires { i < 16 }
    ensures { IsTrue result ↔ MayChange color own.now way moves.now quiet.now i }
{
    let square = own.squares[i];
    counted(color, way, square) != square || (moves.ends[i] & quiet.ends[i]) & 0x0001_ffff != 0
}

// The men who may change.
fn changed_in(color: Color, own: &Men, way: Option<Wing>, moves: &Deeds, quiet: &Deeds) -> SquareSet
    requires { own.now.count ≤ 16 }
    ensures { IsSetOf result (λ s. (i : ℕ) × (i < own.now.count) × (square_at own.now i ≡ s)
        × MayChange color own.now way moves.now quiet.now i) }
{
    let mut changed = SquareSet::empty();
    for i in 0..own.count {
        if may_change(color, own, way, moves, quiet, i) {
            changed = changed | SquareSet::single(own.squares[i]);
        }
    }
    changed
}

// Whether a way has a plan by each measure.
fn is_alive(moves: &Measured<'_>, quiet: &Measured<'_>, way: Option<Wing>) -> bool
    requires { ArePaired moves.now quiet.now }
    ensures tells { (d : Placement) (k : ℕ) → IsSide d moves.now.side.now →
        AreBudgets d moves.now.side.now k moves.now.most quiet.now.most →
        IsTrue result ↔ IsAliveFor d moves.now.side.now k way }
{
    let side = moves.side;
    if !is_way(&side.position, &side.terrain.facts, side.terrain.color, way) {
        return false;
    }
    if !is_paid(moves, way) {
        return false;
    }
    is_paid(quiet, way)
}

// Whether both measures are one: they may count as much, and since no capture may land each step is a quiet move.
fn is_one_measure(side: &Side, most: u8, fewest: u8) -> bool
    ensures { IsTrue result → IsOneMeasure side.now most fewest }
{
    most == fewest && side.terrain.lands().is_empty()
}

// What the plans of a way show; none where it is not alive. Where both measures are one, one tells both. Squares that
// were found before are not looked for.
fn way_shown(
    moves: &Measured<'_>,
    quiet: &Measured<'_>,
    way: Option<Wing>,
    found: &Shown,
) -> Option<Shown>
    requires { ArePaired moves.now quiet.now }
    ensures none { IfNone result ((d : Placement) (k : ℕ) → IsSide d moves.now.side.now →
        AreBudgets d moves.now.side.now k moves.now.most quiet.now.most →
        ¬ IsAliveFor d moves.now.side.now k way) }
    ensures some { IfSome result (λ a. (d : Placement) (k : ℕ) → IsSide d moves.now.side.now →
        AreBudgets d moves.now.side.now k moves.now.most quiet.now.most →
        IsAliveFor d moves.now.side.now k way × ShowsWayFor d moves.now.side.now k way found.now a) }
{
    let side = moves.side;
    let color = side.terrain.color;
    if !is_way(&side.position, &side.terrain.facts, color, way) {
        return None;
    }
    let Some(rooms) = rooms_of(moves, way) else {
        return None;
    };
    if is_one_measure(side, moves.most, quiet.most) {
        let both = deeds_of(moves, way, &rooms, Found::none());
        return Some(Shown {
            changed: changed_in(color, &side.men, way, &both, &both),
            lands: both.lands,
            quiet_lands: both.lands,
            falls: both.falls,
            quiet_falls: both.falls,
        });
    }
    let Some(quiet_rooms) = rooms_of(quiet, way) else {
        return None;
    };
    let by_moves = Found {
        lands: found.lands,
        falls: found.falls,
    };
    let all = deeds_of(moves, way, &rooms, by_moves);
    let by_quiet = Found {
        lands: found.quiet_lands,
        falls: found.quiet_falls,
    };
    let calm = deeds_of(quiet, way, &quiet_rooms, by_quiet);
    Some(Shown {
        changed: changed_in(color, &side.men, way, &all, &calm),
        lands: all.lands,
        quiet_lands: calm.lands,
        falls: all.falls,
        quiet_falls: calm.falls,
    })
}

// What either shows.
fn joined(one: &Shown, other: &Shown) -> Shown
    ensures { IsJoined one.now other.now result }
{
    Shown {
        changed: one.changed | other.changed,
        lands: one.lands | other.lands,
        quiet_lands: one.quiet_lands | other.quiet_lands,
        falls: one.falls | other.falls,
        quiet_falls: one.quiet_falls | other.quiet_falls,
    }
}

// What others show, with what the plans of a way show if it is alive.
fn with_way(
    moves: &Measured<'_>,
    quiet: &Measured<'_>,
    way: Option<Wing>,
    others: Shown,
) -> Option<Shown>
    requires { ArePaired moves.now quiet.now }
    ensures { (d : Placement) (k : ℕ) (ways : List (Option AnyWing)) → IsSide d moves.now.side.now →
        AreBudgets d moves.now.side.now k moves.now.most quiet.now.most →
        ShowsAmongFor d moves.now.side.now k ways (Some others) →
        ShowsAmongFor d moves.now.side.now k (way ∷ ways) result }
{
    match way_shown(moves, quiet, way, &others) {
        None => Some(others),
        Some(shown) => Some(joined(&others, &shown)),
    }
}

// With what the plans of a way show; the same where it is not alive.
fn add_way(
    moves: &Measured<'_>,
    quiet: &Measured<'_>,
    way: Option<Wing>,
    before: Option<Shown>,
) -> Option<Shown>
    requires { ArePaired moves.now quiet.now }
    ensures { (d : Placement) (k : ℕ) (ways : List (Option AnyWing)) → IsSide d moves.now.side.now →
        AreBudgets d moves.now.side.now k moves.now.most quiet.now.most →
        ShowsAmongFor d moves.now.side.now k ways before →
        ShowsAmongFor d moves.now.side.now k (way ∷ ways) result }
{
    match before {
        None => way_shown(moves, quiet, way, &Shown::none()),
        Some(others) => with_way(moves, quiet, way, others),
    }
}

// What the plans of all ways show; none where no way is alive.
fn ways_shown(moves: &Measured<'_>, quiet: &Measured<'_>) -> Option<Shown>
    requires { ArePaired moves.now quiet.now }
    ensures { IsShownBy moves.now.side.now moves.now.most quiet.now.most result }
{
    let none = add_way(moves, quiet, None, None);
    let short = add_way(moves, quiet, Some(Wing::KingSide), none);
    add_way(moves, quiet, Some(Wing::QueenSide), short)
}

// The pawn that has just passed a square.
fn passing_pawn(position: &Position) -> SquareSet
    ensures { (c : AnyColor) (s u : ℕ) → HasPassed position.now c s u → s < 64 → has result s ≡ true }
{
    match position.passed() {
        None => SquareSet::empty(),
        Some(passed) => SquareSet::single(ahead(position.side().other(), 1, passed)),
    }
}

// The men who rest under facts: where the diagram has the same man on a still square, no capture lands, and none has
// just passed a square.
pub(crate) fn resting_men(diagram: &Diagram, position: &Position, facts: &Facts) -> SquareSet
    ensures { AreResting (known facts.now) diagram.now position.now result }
{
    let same = facts.still - position.board().differing(&diagram.board());
    let spared = (same - facts.white) - facts.black;
    spared - passing_pawn(position)
}

// The men of a colour here and in the diagram, without those who rest, and the ground of their steps.
pub(crate) fn side_of(
    diagram: &Diagram,
    position: &Position,
    facts: &Facts,
    color: Color,
    resting: SquareSet,
    table: &[SquareSet; 384],
) -> Side
    requires steps { HasSteps facts.now.still table.now }
    requires few { men color any_man (lifted position.now.board resting) ≤ 16 }
    requires room { men color any_man (lifted diagram.now resting)
        ≤ men color any_man (lifted position.now.board resting) }
    ensures side { IsSide (lifted diagram.now resting) result }
    ensures position { result.position ≡ lifted_from position.now resting }
    ensures facts { result.terrain.facts ≡ facts.now }
    ensures color { result.terrain.color ≡ color }
{
    let scene = Scene::new(position, resting);
    let men = scene.men(color);
    Side {
        position: scene,
        terrain: ground_of(facts, color, table),
        men,
        goals: men_without(&diagram.board(), color, resting),
    }
}

// What is measured of a side, where these are the rings of its paths.
pub(crate) fn by_measure<'a>(
    side: &'a Side,
    is_quiet: bool,
    most: u8,
    aims: &'a Aims,
) -> Measured<'a>
    requires low { most < 200 }
    requires aims { AreAims side.now is_quiet aims.now }
    ensures side { result.side.now ≡ side.now }
    ensures quiet { result.is_quiet ≡ is_quiet }
    ensures most { result.most ≡ most }
{
    Measured {
        side,
        is_quiet,
        aims,
        most,
        costs: first_costs(side, is_quiet, aims, most),
    }
}

// The same in quiet moves, where both measures are one.
fn in_quiet_moves<'a>(moves: &Measured<'a>) -> Measured<'a>
    requires moves { moves.now.is_quiet ≡ false }
    requires none { HasNoneFrom (landing moves.now.side.now.terrain.facts moves.now.side.now.terrain.color) 0 }
    ensures paired { ArePaired moves.now result }
    ensures most { result.most ≡ moves.now.most }
{
    Measured {
        side: moves.side,
        is_quiet: true,
        aims: moves.aims,
        most: moves.most,
        costs: moves.costs,
    }
}

// What the plans of a side show by one measure that is both. A table of its own, since it is cleared where a function
// begins.
#[inline(never)]
fn shown_by_one(side: &Side, budgets: &Budgets) -> Option<Shown>
    requires { IsOneMeasure side.now budgets.now.moves budgets.now.quiet }
    ensures { IsShownBy side.now budgets.now.moves budgets.now.quiet result }
{
    let mut aims = [Rings::none(); 17];
    fill_aims(side, false, budgets.moves, &mut aims);
    let moves = by_measure(side, false, budgets.moves, &aims);
    ways_shown(&moves, &in_quiet_moves(&moves))
}

// What the plans of a side show by quiet moves and by moves, whose rings are made here.
#[inline(never)]
fn shown_with_moves(budgets: &Budgets, quiet: &Measured<'_>) -> Option<Shown>
    requires { quiet.now.is_quiet ≡ true }
    ensures { IsShownBy quiet.now.side.now budgets.now.moves quiet.now.most result }
{
    let mut aims = [Rings::none(); 17];
    fill_aims(quiet.side, false, budgets.moves, &mut aims);
    ways_shown(&by_measure(quiet.side, false, budgets.moves, &aims), quiet)
}

// Whether quiet moves pay for a way that is open.
fn is_quietly_paid(calm: &Measured<'_>, way: Option<Wing>) -> bool
    requires { calm.now.is_quiet ≡ true }
    ensures { result ≡ false → (d : Placement) (k : ℕ) → IsSide d calm.now.side.now →
        IsBudget d calm.now.side.now.position k calm.now.side.now.terrain.color QuietMoves calm.now.most →
        ¬ IsAliveFor d calm.now.side.now k way }
{
    let side = calm.side;
    if !is_way(&side.position, &side.terrain.facts, side.terrain.color, way) {
        return false;
    }
    is_paid(calm, way)
}

// Whether quiet moves pay for some way that is open.
fn some_quietly_paid(quiet: &Measured<'_>) -> bool
    requires { quiet.now.is_quiet ≡ true }
    ensures { result ≡ false → (d : Placement) (k : ℕ) → IsSide d quiet.now.side.now →
        IsBudget d quiet.now.side.now.position k quiet.now.side.now.terrain.color QuietMoves quiet.now.most →
        IsDead (facts_of quiet.now.side.now) d quiet.now.side.now.position k quiet.now.side.now.terrain.color }
{
    if is_quietly_paid(quiet, None) {
        return true;
    }
    if is_quietly_paid(quiet, Some(Wing::KingSide)) {
        return true;
    }
    is_quietly_paid(quiet, Some(Wing::QueenSide))
}

// What the plans of a side show by two measures. Where a side has no way alive it is mostly quiet moves that tell it,
// so they come first.
#[inline(never)]
fn shown_by_two(side: &Side, budgets: &Budgets) -> Option<Shown>
    ensures { IsShownBy side.now budgets.now.moves budgets.now.quiet result }
{
    let mut aims = [Rings::none(); 17];
    fill_aims(side, true, budgets.quiet, &mut aims);
    let quiet = by_measure(side, true, budgets.quiet, &aims);
    if !some_quietly_paid(&quiet) {
        return None;
    }
    shown_with_moves(budgets, &quiet)
}

// What the plans of a side show, by rings that are made here.
fn shown_anew(side: &Side, budgets: &Budgets) -> Option<Shown>
    ensures { IsShownBy side.now budgets.now.moves budgets.now.quiet result }
{
    if is_one_measure(side, budgets.moves, budgets.quiet) {
        return shown_by_one(side, budgets);
    }
    shown_by_two(side, budgets)
}

// What the plans of a side show, by rings that are known.
fn shown_by_known(side: &Side, budgets: &Budgets, one: &KnownPaths) -> Option<Shown>
    requires moves { AreAims side.now false one.now.moves }
    requires quiet { AreAims side.now true one.now.quiet }
    ensures { IsShownBy side.now budgets.now.moves budgets.now.quiet result }
{
    let moves = by_measure(side, false, budgets.moves, &one.moves);
    if is_one_measure(side, budgets.moves, budgets.quiet) {
        return ways_shown(&moves, &in_quiet_moves(&moves));
    }
    ways_shown(&moves, &by_measure(side, true, budgets.quiet, &one.quiet))
}

// What the plans of a side show, by what is known of it if there is any.
fn shown_by(side: &Side, budgets: &Budgets, beforehand: &[KnownPaths]) -> Option<Shown>
    ensures { IsShownBy side.now budgets.now.moves budgets.now.quiet result }
{
    match known_for(beforehand, side) {
        Some(one) => shown_by_known(side, budgets, one),
        None => shown_anew(side, budgets),
    }
}

// What is shown with the men back who rest, who do not change.
fn with_resting(shown: Option<Shown>, resting: SquareSet) -> Option<Shown>
    ensures { (f : GameFacts) (d : Placement) (p : State) (k : ℕ) (c : AnyColor) → AreResting f d p resting →
        MatchOption shown (IsDead f (lifted d resting) (lifted_from p resting) k c)
        (λ a. Shows f (lifted d resting) (lifted_from p resting) k c a) →
        MatchOption result (IsDead f d p k c) (λ a. Shows f d p k c a) }
{
    match shown {
        None => None,
        Some(shown) => Some(Shown {
            changed: shown.changed - resting,
            ..shown
        }),
    }
}

// What the plans of a colour show under the facts of a round; none where no way is alive.
pub(crate) fn shown_of(course: &Course<'_>, round: &Round<'_>, color: Color) -> Option<Shown>
    ensures { IsShownOn course.now round.now.facts color result }
{
    let (diagram, position) = (course.diagram, course.position);
    let Some(budgets) = budgets_of(course, color) else {
        return None;
    };
    let resting = resting_men(diagram, position, &round.facts);
    let side = side_of(diagram, position, &round.facts, color, resting, round.table);
    with_resting(shown_by(&side, &budgets, round.known), resting)
}

// Whether some way is alive.
fn some_alive(moves: &Measured<'_>, quiet: &Measured<'_>) -> bool
    requires { ArePaired moves.now quiet.now }
    ensures { (d : Placement) (k : ℕ) → IsSide d moves.now.side.now →
        AreBudgets d moves.now.side.now k moves.now.most quiet.now.most →
        IsTrue result ↔ ((way : Option AnyWing) × IsAliveFor d moves.now.side.now k way) }
{
    if is_alive(moves, quiet, None) {
        return true;
    }
    if is_alive(moves, quiet, Some(Wing::KingSide)) {
        return true;
    }
    is_alive(moves, quiet, Some(Wing::QueenSide))
}

// Whether a colour has no way alive by facts.
pub(crate) fn is_dead(course: &Course<'_>, facts: &Facts, color: Color) -> bool
    ensures { IsTrue result ↔ IsDeadOn course.now facts.now color }
{
    let (diagram, position) = (course.diagram, course.position);
    let Some(budgets) = budgets_of(course, color) else {
        return true;
    };
    let table = steps_table(facts.still);
    let resting = resting_men(diagram, position, facts);
    let side = side_of(diagram, position, facts, color, resting, &table);
    let mut aims = [Rings::none(); 17];
    fill_aims(&side, false, budgets.moves, &mut aims);
    let moves = by_measure(&side, false, budgets.moves, &aims);
    let mut quiet_aims = [Rings::none(); 17];
    fill_aims(&side, true, budgets.quiet, &mut quiet_aims);
    let quiet = by_measure(&side, true, budgets.quiet, &quiet_aims);
    !some_alive(&moves, &quiet)
}
