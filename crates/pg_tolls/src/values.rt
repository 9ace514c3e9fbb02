//! What the men of a colour cost together: the least over the ways.
ghost use Rattle.std.specs.Prelude.{◌≡◌, ◌+◌, ◌*◌, ◌≤◌, ◌↔◌, ℕ, Some, None, IsTrue, get_or};
ghost use Rattle.pg_board.specs.Placement.{Placement};
ghost use Rattle.pg_board.specs.Tally.{total};
ghost use Rattle.pg_position.specs.declared.state.State.{State};
ghost use Rattle.pg_captures.specs.Counting.{men, any_man};
ghost use Rattle.pg_travel.specs.Origins.{charge as charge_of};
ghost use Rattle.pg_assignments.specs.Assignments.{IsLeast};
ghost use Rattle.pg_assignments.specs.Search.{lesser_of};
ghost use Rattle.pg_tolls.specs.declared.bills.Party.{Party};
ghost use Rattle.pg_tolls.specs.inner.Bills.{IsPartyOf, IsBillOf, IsCostBy, IsOpenCost, IsAtMost};
ghost use Rattle.pg_tolls.specs.inner.Bills.{IsLeastBeside, IsBoundBy};
ghost use Rattle.pg_tolls.specs.inner.Values.{marks_for, IsOpenWay, IsCost};

use crate::bills::{Bill, Party, bill_of, castled_of, columns_of, passing_of};
use crate::half::Half;
use crate::rows::Row;
use pg_assignments::{Costs, least_total};
use pg_board::SquareSet;
use pg_captures::victims_of;
use pg_fen::Diagram;
use pg_journeys::{charge, men_without, span};
use pg_position::{Position, Wing};

// The sum of the first `count` numbers.
pub(crate) fn sum(row: &Row, count: usize) -> u32
    requires { count ≤ 16 }
    ensures value { result ≡ total (λ i. get_or row.now i 0) count }
    ensures low { result ≤ 1048560 }
{
    let mut sum = 0u32;
    for i in 0..count {
        sum += u32::from(row[i]);
    }
    sum
}

// What the men of a bill cost in a way if each costs his least.
fn base(half: &Half, way: Option<Wing>, bill: &Bill) -> u32
    requires { bill.now.size ≤ 16 }
    ensures value { result ≡ half.now.weight * charge_of way
        + total (λ i. get_or bill.now.leasts i 0) bill.now.size }
    ensures low { result ≤ 1048815 }
{
    let castling = u32::from(half.weight) * u32::from(charge(way));
    castling + sum(&bill.leasts, bill.size)
}

// Whether there is a number, and it is at most this one.
fn is_at_most(found: Option<u32>, base: u32) -> bool
    ensures { IsTrue result → IsAtMost found base }
{
    match found {
        None => false,
        Some(number) => number <= base,
    }
}

// The lesser of two numbers, where there are any.
fn lesser(a: Option<u32>, b: Option<u32>) -> Option<u32>
    ensures { result ≡ lesser_of a b }
{
    match (a, b) {
        (None, _) => b,
        (Some(_), None) => a,
        (Some(x), Some(y)) => Some(x.min(y)),
    }
}

// The lesser of what was found before and what the men of a bill cost in a way, which is not less than a bound. It is
// not asked who ends where, if the bound or their leasts are as much as what was found.
fn beside(
    half: &Half,
    way: Option<Wing>,
    bill: &Bill,
    bound: u32,
    found: Option<u32>,
) -> Option<u32>
    requires { bill.now.size ≤ 16 }
    ensures { (d : Placement) (p : State) (m : Party) → IsPartyOf half.now p m →
        m.marks ≡ marks_for half.now d p.board → IsBillOf half.now p m way bill.now →
        ((v : ℕ) → IsCostBy half.now d p way v → bound ≤ v) → IsLeastBeside (IsCostBy half.now d p way) found result }
{
    let base = base(half, way, bill);
    if is_at_most(found, base.max(bound)) {
        return found;
    }
    let costs = Costs {
        size: bill.size,
        rows: bill.rows,
    };
    match least_total(&costs) {
        None => found,
        Some(total) => lesser(found, Some(base + u32::from(total))),
    }
}

// A number that the men do not cost less than by a castling: what they cost without it and the castling, less what it
// spares them. 0 where that is not told.
fn bound(half: &Half, uncastled: Option<u32>, spared: u32) -> u32
    ensures { IsBoundBy half.now.weight uncastled spared result }
{
    match uncastled {
        None => 0,
        Some(value) => {
            if spared < 65535 {
                value
                    .saturating_add(u32::from(half.weight))
                    .saturating_sub(spared)
            } else {
                0
            }
        }
    }
}

// Whether a castling is open to the colour of a half.
pub(crate) fn is_open(half: &Half, position: &Position, wing: Wing) -> bool
    ensures { IsTrue result ↔ IsOpenWay half.now position.now (Some wing) }
{
    position.rights().holds(half.color, wing) && (span(half.color, wing) - half.free).is_empty()
}

// What the men of a party cost where none castles, by their bill, and together at least.
#[derive(Clone, Copy)]
pub(crate) struct Uncastled {
    pub(crate) bill: Bill,
    pub(crate) value: Option<u32>,
}

// The lesser of what was found before and what a party costs by a castling, if that is open.
fn beside_castling(
    half: &Half,
    position: &Position,
    party: &Party,
    uncastled: &Uncastled,
    wing: Wing,
    found: Option<u32>,
) -> Option<u32>
    requires party { IsPartyOf half.now position.now party.now }
    requires bill { IsBillOf half.now position.now party.now None uncastled.now.bill }
    ensures { (d : Placement) → party.now.marks ≡ marks_for half.now d position.now.board →
        IsLeast (IsCostBy half.now d position.now None) uncastled.now.value →
        IsLeastBeside (IsOpenCost half.now d position.now (Some wing)) found result }
{
    if !is_open(half, position, wing) {
        return found;
    }
    let castled = castled_of(half, party, &uncastled.bill, wing);
    let spared = sum(&castled.spared, party.men.count);
    let bound = bound(half, uncastled.value, spared);
    beside(half, Some(wing), &castled.bill, bound, found)
}

// How many marks each walk may have: the captures that the colour owes.
pub(crate) fn marks_of(half: &Half, diagram: &Diagram, position: &Position) -> u8
    ensures value { result ≡ marks_for half.now diagram.now position.now.board }
    ensures few { result ≤ 64 }
{
    let here = victims_of(&position.board(), half.color);
    here.saturating_sub(victims_of(&diagram.board(), half.color))
}

// The men of a colour.
pub(crate) fn party_of(half: &Half, diagram: &Diagram, position: &Position) -> Party
    requires { men half.now.color any_man position.now.board ≤ 16 }
    ensures party { IsPartyOf half.now position.now result }
    ensures marks { result.marks ≡ marks_for half.now diagram.now position.now.board }
{
    let men = men_without(&position.board(), half.color, SquareSet::empty());
    let marks = marks_of(half, diagram, position);
    Party {
        men,
        marks,
        passing: passing_of(half, position, marks),
        columns: columns_of(half.goals.count, men.count),
    }
}

// What the men of a colour cost together at least: their party by each way.
pub(crate) fn value(half: &Half, diagram: &Diagram, position: &Position) -> Option<u32>
    requires { men half.now.color any_man position.now.board ≤ 16 }
    ensures { IsLeast (IsCost half.now diagram.now position.now) result }
{
    let party = party_of(half, diagram, position);
    let bill = bill_of(half, &party);
    let value = beside(half, None, &bill, 0, None);
    let plain = Uncastled { bill, value };
    let king_side = beside_castling(half, position, &party, &plain, Wing::KingSide, value);
    beside_castling(half, position, &party, &plain, Wing::QueenSide, king_side)
}
