//! Whether what the men of both colours cost at least is above what the plies left pay for.
ghost use Rattle.std.specs.Prelude.{◌≡◌, ◌*◌, ◌≤◌, ◌↔◌, IsTrue};
ghost use Rattle.pg_journeys.specs.Rounds.{HasFew};
ghost use Rattle.pg_tolls.specs.inner.Excluding.{HalvesExclude, IsPaidFor, share as share_of, surplus as surplus_of};
ghost use Rattle.pg_tolls.specs.inner.Values.{marks_for};

use crate::half::Half;
use crate::memory::value_by;
use crate::tolls::Tolls;
use crate::values::marks_of;
use pg_captures::{all_men, plies_left};
use pg_fen::Diagram;
use pg_journeys::{has_few, has_fewer, has_walls};
use pg_position::Position;

// What `plies` plies of a weight pay for.
fn steps_paid(weight: u8, plies: u8) -> u32
    ensures value { result ≡ weight * plies }
    ensures low { result ≤ 65025 }
{
    u32::from(weight) * u32::from(plies)
}

// What a table counts too much: 128 for each mark of each man, and 127 for each man who is captured.
pub(crate) fn surplus(half: &Half, diagram: &Diagram, position: &Position) -> u32
    ensures value { result ≡ surplus_of half.now diagram.now position.now }
    ensures low { result ≤ 1000000 }
{
    let men = all_men(&position.board(), half.color);
    let marks = marks_of(half, diagram, position);
    let captured = usize::from(men).saturating_sub(half.goals.count) as u32;
    128 * (u32::from(marks) * u32::from(men)) + 127 * captured
}

// What the plies of a colour pay for, counted as its table counts.
fn share(half: &Half, diagram: &Diagram, position: &Position, left: u8) -> u32
    ensures { result ≡ share_of half.now diagram.now position.now left }
{
    let plies = plies_left(position.side(), half.color, left);
    steps_paid(half.weight, plies) + surplus(half, diagram, position)
}

// Whether both colours can be paid for, where neither has more than sixteen men.
fn is_paid_for(bound: &Tolls, position: &Position, left: u8) -> bool
    requires { HasFew position.now }
    ensures { IsTrue result ↔
        IsPaidFor bound.now.white bound.now.black bound.now.diagram position.now left }
{
    let (diagram, white, black) = (&bound.diagram, &bound.white, &bound.black);
    match value_by(&bound.white_memory, &bound.tariff, diagram, white, position) {
        None => false,
        Some(first) => match value_by(
            &bound.black_memory,
            &bound.tariff,
            diagram,
            black,
            position,
        ) {
            None => false,
            Some(second) => {
                let limit = u64::from(share(white, diagram, position, left))
                    + u64::from(share(black, diagram, position, left));
                u64::from(first) + u64::from(second) <= limit
            }
        },
    }
}

// Whether the halves of a bound exclude its diagram: a wall of it has lost its pawn, or men of a colour are missing;
// or, where no colour has more than sixteen men, both together cannot be paid for.
pub(crate) fn is_excluded(bound: &Tolls, position: &Position, left: u8) -> bool
    ensures { IsTrue result ↔
        HalvesExclude bound.now.white bound.now.black bound.now.diagram position.now left }
{
    if !has_walls(&bound.diagram, position) || has_fewer(&bound.diagram, position) {
        return true;
    }
    if !has_few(position) {
        return false;
    }
    !is_paid_for(bound, position, left)
}
