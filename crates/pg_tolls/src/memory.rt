//! What the men of a colour cost, remembered for when they stand so again.
ghost use Rattle.std.specs.Prelude.{◌≡◌, ◌≢◌, ℕ, ◌<◌, ◌↔◌, IsTrue, IfSome, IfOk, All, [], true, false};
ghost use Rattle.pg_board.specs.Placement.{Placement};
ghost use Rattle.pg_board.specs.declared.man.Color.{Color as AnyColor};
ghost use Rattle.pg_board.specs.declared.man.Kind.{Kind as AnyKind};
ghost use Rattle.pg_position.specs.Position.{Stands};
ghost use Rattle.pg_assignments.specs.Assignments.{IsLeast};
ghost use Rattle.pg_journeys.specs.Rounds.{HasFew};
ghost use Rattle.pg_journeys.specs.declared.men.Men.{Men as AnyMen};
ghost use Rattle.pg_tolls.specs.Stated.{stated};
ghost use Rattle.pg_tolls.specs.Tariffs.{Tariff as AnyTariff};
ghost use Rattle.pg_tolls.specs.inner.Values.{marks_for, IsCost};
ghost use Rattle.pg_tolls.specs.inner.Remembering.{AreAlike, AreOnSame, AreSameClaims, HasNotPassed, IsCase};
ghost use Rattle.pg_tolls.specs.inner.Remembering.{IsOwner, IsRemembered, MayBeTight, MayBeTold, Tells};

use crate::half::Half;
use crate::tariff::Tariff;
use crate::values::{marks_of, value};
use pg_board::{Color, PackedBoard};
use pg_fen::Diagram;
use pg_journeys::Men;
use pg_position::{Position, Wing};
use std::alloc::{AllocError, Global};
use std::cell::RefCell;
use std::marker::Model;

// How many cases are remembered at most.
const MOST_CASES: usize = 1024;

// What a colour's cost hangs on: its men and rights, and how many marks each walk may have.
#[derive(Clone, Copy)]
pub(crate) struct Case {
    pub(crate) board: PackedBoard,
    pub(crate) king_side: bool,
    pub(crate) queen_side: bool,
    pub(crate) marks: u8,
}

// A case, and what the men cost at least, none where they cannot be paid for. Where it is not told it says nothing.
#[derive(Clone, Copy)]
pub(crate) struct Remembered {
    pub(crate) case: Case,
    pub(crate) value: Option<u32>,
    pub(crate) is_told: bool,
}

// What says nothing.
fn nothing() -> Remembered
    ensures { result.is_told ≡ false }
{
    Remembered {
        case: Case {
            board: Position::array().board().packed(),
            king_side: false,
            queen_side: false,
            marks: 0,
        },
        value: None,
        is_told: false,
    }
}

// The case of a colour in a position.
fn case_of(color: Color, marks: u8, position: &Position) -> Case
    ensures { IsCase color marks position.now result }
{
    let rights = position.rights();
    Case {
        board: position.board().packed(),
        king_side: rights.holds(color, Wing::KingSide),
        queen_side: rights.holds(color, Wing::QueenSide),
        marks,
    }
}

// Whether no pawn of the colour has just passed a square.
fn has_not_passed(color: Color, position: &Position) -> bool
    ensures { IsTrue result → HasNotPassed position.now color }
{
    match position.passed() {
        None => true,
        Some(_) => position.side() == color,
    }
}

// Whether the colour has the same men on both boards.
fn same_men(color: Color, one: &PackedBoard, another: &PackedBoard) -> bool
    ensures { IsTrue result → (k : AnyKind) (s : ℕ) → s < 64 →
        Stands one.now color k s ↔ Stands another.now color k s }
{
    let here = one.board();
    let there = another.board();
    let own = here.squares_of_color(color) | there.squares_of_color(color);
    !own.meets(here.differing(&there))
}

// Whether two cases have the same rights, and as many marks.
fn same_claims(one: &Case, another: &Case) -> bool
    ensures { IsTrue result → AreSameClaims one.now another.now }
{
    one.marks == another.marks
        && one.king_side == another.king_side
        && one.queen_side == another.queen_side
}

// Whether two cases of a colour are the same.
fn are_alike(color: Color, one: &Case, another: &Case) -> bool
    ensures { IsTrue result → AreAlike color one.now another.now }
{
    same_claims(one, another) && same_men(color, &one.board, &another.board)
}

// The place where a case is remembered, and no other is looked for.
fn place_of(color: Color, case: &Case) -> usize {
    let own = case.board.board().squares_of_color(color).bits();
    let rest = u64::from(case.marks) * 4
        + u64::from(case.king_side) * 2
        + u64::from(case.queen_side);
    let number = own.wrapping_mul(0xff51_afd7_ed55_8ccd) ^ rest.wrapping_mul(0x9e37_79b9_7f4a_7c15);
    (number >> 50) as usize % MOST_CASES
}

// Whether what is remembered is told of a case that is the same.
fn tells(kept: &Remembered, color: Color, case: &Case) -> bool
    ensures { IsTrue result → (kept.now.is_told ≡ true) × AreAlike color kept.now.case case.now }
{
    kept.is_told && are_alike(color, &kept.case, case)
}

// What is remembered at the place of a case that is the same.
fn recall<'a>(
    told: &'a [Remembered],
    place: usize,
    color: Color,
    case: &Case,
) -> Option<&'a Remembered>
    ensures { (t : AnyTariff) (d : Placement) (goals : AnyMen) → All (IsRemembered t d color goals) told.now →
        IfSome result (λ kept. Tells t d color goals case.now kept.now.value) }
{
    if place < told.len() && tells(&told[place], color, case) {
        return Some(&told[place]);
    }
    None
}

// Remembers what a case costs at its place, if there is one, in the place of what was remembered there.
fn remember(told: &mut [Remembered], place: usize, case: &Case, value: Option<u32>)
    ensures { (t : AnyTariff) (d : Placement) (c : AnyColor) (goals : AnyMen) →
        All (IsRemembered t d c goals) told.old → Tells t d c goals case.now value →
        All (IsRemembered t d c goals) told.new }
{
    if place < told.len() {
        told[place] = Remembered {
            case: *case,
            value,
            is_told: true,
        };
    }
}

// The same as `value`, by what is remembered, which it adds to.
fn value_in(
    told: &mut [Remembered],
    half: &Half,
    diagram: &Diagram,
    position: &Position,
) -> Option<u32>
    requires full { half.now.rows.items ≢ [] }
    requires passed { HasNotPassed position.now half.now.color }
    requires few { HasFew position.now }
    ensures value { (t : AnyTariff) → All (IsRemembered t diagram.now half.now.color half.now.goals) told.old →
        ∥ MayBeTight t diagram.now half.now ∥₁ → IsLeast (IsCost half.now diagram.now position.now) result }
    ensures kept { (t : AnyTariff) → All (IsRemembered t diagram.now half.now.color half.now.goals) told.old →
        ∥ MayBeTight t diagram.now half.now ∥₁ →
        All (IsRemembered t diagram.now half.now.color half.now.goals) told.new }
{
    let case = case_of(half.color, marks_of(half, diagram, position), position);
    let place = place_of(half.color, &case);
    if let Some(kept) = recall(told, place, half.color, &case) {
        return kept.value;
    }
    let value = value(half, diagram, position);
    remember(told, place, &case, value);
    value
}

// Whose costs are remembered: the men of a colour, by a tariff, on the way to these men of a diagram.
#[derive(Clone, Copy)]
pub(crate) struct Owner {
    pub(crate) tariff: Tariff,
    pub(crate) color: Color,
    pub(crate) goals: Men,
}

// Whether both are the same colour.
fn same_color(one: Color, another: Color) -> bool
    ensures { IsTrue result → one ≡ another }
{
    one == another
}

// Whether both are the same tariff.
fn same_tariff(one: &Tariff, another: &Tariff) -> bool
    ensures { IsTrue result → one.now ≡ another.now }
{
    one == another
}

// Whether both list as many men, on the same squares in the same order.
fn same_goals(one: &Men, another: &Men) -> bool
    ensures { IsTrue result → AreOnSame one.now another.now }
{
    one.count == another.count && one.squares == another.squares
}

// Whether the costs of a half's colour by a tariff are remembered for an owner.
fn is_owner(owner: &Owner, tariff: &Tariff, half: &Half) -> bool
    ensures { IsTrue result → IsOwner owner.now tariff.now half.now }
{
    same_color(owner.color, half.color)
        && same_goals(&owner.goals, &half.goals)
        && same_tariff(&owner.tariff, tariff)
}

// Whether costs in a position may be remembered: by a half that has a table, where no pawn has just passed a square.
fn may_be_told(half: &Half, position: &Position) -> bool
    ensures { IsTrue result → MayBeTold half.now position.now }
{
    !half.rows.is_empty() && has_not_passed(half.color, position)
}

// Room for cases, of which none is told yet.
fn room_for_cases(alloc: Global) -> Result<Vec<Remembered>, AllocError>
    ensures { IfOk result (λ room. (t : AnyTariff) (d : Placement) (c : AnyColor) (goals : AnyMen) →
        All (IsRemembered t d c goals) room.items) }
{
    let room = Vec::from_elem(alloc, nothing(), MOST_CASES)?;
    Ok(room)
}

/// What the men of a colour cost by a tariff on the way to a diagram, in positions that were asked: some 60 KB, made
/// once. What is remembered changes no answer: it is used where the colour has the same men and rights and may have as
/// many marks, and none of its pawns has just passed a square.
#[derive(Drop)]
pub(crate) struct Memory {
    owner: Owner,
    diagram: Diagram,
    told: Vec<Remembered>,
}

impl Model for Memory {
    ghost use Rattle.std.specs.Prelude.{All};
    ghost use Rattle.pg_board.specs.Placement.{Placement};
    ghost use Rattle.pg_board.specs.lemmas.Codes.{placement_code};
    ghost use Rattle.pg_tolls.specs.Stated.{stated};
    ghost use Rattle.pg_tolls.specs.inner.Remembering.{IsRemembered};

    ghost Value = { Placement };

    ghost coded = { placement_code };

    ghost view = { λ m. m.diagram };

    ghost invariant = { λ m.
        All (IsRemembered (stated m.owner.tariff) m.diagram m.owner.color m.owner.goals) m.told.items };
}

impl Memory {
    /// A memory of nothing, for the colour of a half.
    pub(crate) fn new(
        alloc: Global,
        tariff: &Tariff,
        diagram: &Diagram,
        half: &Half,
    ) -> Result<Memory, AllocError> {
        let told = room_for_cases(alloc)?;
        Ok(Memory {
            owner: Owner {
                tariff: *tariff,
                color: half.color,
                goals: half.goals,
            },
            diagram: *diagram,
            told,
        })
    }

    // What the men of the colour of a half cost together at least: as it is remembered, or reckoned and remembered.
    fn value(
        &mut self,
        tariff: &Tariff,
        diagram: &Diagram,
        half: &Half,
        position: &Position,
    ) -> Option<u32>
        requires tight { ∥ MayBeTight (stated tariff.now) diagram.now half.now ∥₁ }
        requires few { HasFew position.now }
        ensures { IsLeast (IsCost half.now diagram.now position.now) result }
    {
        if !may_be_told(half, position) {
            return value(half, diagram, position);
        }
        if self.diagram != *diagram || !is_owner(&self.owner, tariff, half) {
            return value(half, diagram, position);
        }
        value_in(self.told.as_mut_slice(), half, diagram, position)
    }
}

// What the men of the colour of a half cost together at least, by its memory. That is in use by no other call: one that
// would find it so goes without.
pub(crate) fn value_by(
    memory: &RefCell<Memory>,
    tariff: &Tariff,
    diagram: &Diagram,
    half: &Half,
    position: &Position,
) -> Option<u32>
    requires tight { ∥ MayBeTight (stated tariff.now) diagram.now half.now ∥₁ }
    requires few { HasFew position.now }
    ensures { IsLeast (IsCost half.now diagram.now position.now) result }
{
    match memory.try_borrow_mut() {
        Ok(mut memory) => memory.value(tariff, diagram, half, position),
        Err(_) => value(half, diagram, position),
    }
}
