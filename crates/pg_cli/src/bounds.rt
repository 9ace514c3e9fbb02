//! Bounds that remember, each made in its box. Each is made in a call of its own: its bytes are many, and stand on the
//! stack while it is made alone.
ghost use Rattle.std.specs.Prelude.{◌≡◌, ◌+◌, ◌*◌, ◌<◌, IfOk};
ghost use Rattle.pg_tolls.specs.Stated.{stated};
ghost use Rattle.pg_tariff_files.specs.Files.{IsAt};

use pg_fen::Diagram;
use pg_journeys::JourneysByMemory;
use pg_tariff_files::tariff_at;
use pg_tolls::Tolls;
use pg_travel::{Rows, TravelByRows};
use std::alloc::{AllocError, Global};

// The bound by travel, by the distances to a diagram's men.
#[inline(never)]
pub(crate) fn travel_to(alloc: Global, diagram: &Diagram) -> Result<Box<TravelByRows>, AllocError> {
    let rows = Rows::new(diagram);
    match Box::new(alloc, TravelByRows { rows }) {
        Ok(travel) => Ok(travel),
        Err(_) => Err(AllocError),
    }
}

// The bound by journeys, which remembers what it has shown of a diagram.
#[inline(never)]
pub(crate) fn journeys_to(
    alloc: Global,
    diagram: &Diagram,
) -> Result<Box<JourneysByMemory>, AllocError> {
    let journeys = JourneysByMemory::new(alloc, diagram)?;
    match Box::new(alloc, journeys) {
        Ok(journeys) => Ok(journeys),
        Err(_) => Err(AllocError),
    }
}

// The bound by the tariff of a number, from 0, among those that bytes state one after the other.
#[inline(never)]
pub(crate) fn tolls_to(
    alloc: Global,
    diagram: &Diagram,
    tariffs: &[u8],
    number: u8,
) -> Result<Box<Tolls>, AllocError>
    requires { number < 250 }
    ensures tariff { IfOk result (λ b. IsAt tariffs.now (130 * number) (stated b.value.tariff)) }
    ensures code { IfOk result (λ b. b.value.code ≡ 6 + number) }
    ensures diagram { IfOk result (λ b. b.value.diagram ≡ diagram.now) }
{
    let tariff = tariff_at(tariffs, number);
    let tolls = Tolls::new(alloc, diagram, &tariff, Tolls::FIRST_CODE + number)?;
    match Box::new(alloc, tolls) {
        Ok(tolls) => Ok(tolls),
        Err(_) => Err(AllocError),
    }
}
