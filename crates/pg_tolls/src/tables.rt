//! Tables of what walks are charged, for one colour: filled, and tested.
ghost use Rattle.std.specs.Prelude.{◌≢◌, ◌≤◌, IfOk, []};
ghost use Rattle.pg_journeys.specs.Known.{known};
ghost use Rattle.pg_journeys.specs.inner.Grounds.{IsGround};
ghost use Rattle.pg_tolls.specs.Stated.{stated};
ghost use Rattle.pg_tolls.specs.inner.Tables.{IsClosed};
ghost use Rattle.pg_tolls.specs.inner.Closing.{HasLowTolls};
ghost use Rattle.pg_tolls.specs.inner.Highest.{AreTight};

use crate::closed::is_closed;
use crate::filling::fill;
use crate::rows::raised;
use crate::tariff::Tariff;
use pg_board::{Color, Square};
use pg_journeys::{Ground, Men};
use std::alloc::{AllocError, Global};

// Looks at each toll of a colour: none is above 127. So the empty table is closed, which reads 0 everywhere.
fn look_at_tolls(tariff: &Tariff, color: Color)
    ensures { HasLowTolls (stated tariff.now) color 64 }
{
    for at in 0..64usize {
        raised(tariff, color, Square::at(at as u8));
    }
}

/// A table of the least charges of walks of a colour's men, for up to `most` marks: by the marks that are left, the
/// kind and the square of a man, at `(marks * 6 + kind) * 64 + square`, a row with a number for each man of the
/// diagram, and the last one for being captured. No closed table has higher numbers. It is empty where the test of it
/// fails.
pub(crate) fn tables_of(
    alloc: Global,
    tariff: &Tariff,
    ground: &Ground,
    goals: &Men,
    most: usize,
) -> Result<Vec<[u16; 16]>, AllocError>
    requires sound { IsGround ground.now }
    requires goals { goals.now.count ≤ 16 }
    requires most { most ≤ 16 }
    ensures closed { IfOk result (λ rows.
        IsClosed (stated tariff.now) (known ground.now.facts) ground.now.color goals.now most rows.items) }
    ensures tight { IfOk result (λ rows. rows.items ≢ [] →
        AreTight (stated tariff.now) (known ground.now.facts) ground.now.color goals.now most rows.items) }
{
    look_at_tolls(tariff, ground.color.other());
    let table = fill(alloc, tariff, ground, goals, most)?;
    if is_closed(tariff, ground, goals, most, &table) {
        Ok(table)
    } else {
        Ok(Vec::new(alloc))
    }
}

/// The same table for up to `most` marks, which is not tested.
pub(crate) fn untested_tables(
    alloc: Global,
    tariff: &Tariff,
    ground: &Ground,
    goals: &Men,
    most: usize,
) -> Result<Vec<[u16; 16]>, AllocError>
    requires sound { IsGround ground.now }
    requires most { most ≤ 16 }
{
    look_at_tolls(tariff, ground.color.other());
    fill(alloc, tariff, ground, goals, most)
}
