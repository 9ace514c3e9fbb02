//! How often each answer came.
use pg_checker::{Fault, ListFault, Proved};

// The name of each answer, in the order of the tally.
const NAMES: [&str; 20] = [
    "yes",
    "Listed(WrongLength)",
    "Listed(NotReaching)",
    "Magic",
    "OtherLength",
    "OtherDiagram",
    "Budget",
    "Truncated",
    "Read",
    "UnknownRecord",
    "UnknownBound",
    "CutFails",
    "RefUnknown",
    "RefDiffers",
    "RefFertile",
    "TooManyNamed",
    "Memory",
    "Shorter",
    "Unlisted",
    "Trailing",
];

// A number for each answer.
#[derive(Clone, Copy, Debug)]
pub(crate) struct Tally {
    counts: [u64; 20],
}

// The answer's place in the tally.
fn place(answer: &Result<Proved, Fault>) -> usize {
    match answer {
        Ok(_) => 0,
        Err(Fault::Listed(ListFault::WrongLength(_))) => 1,
        Err(Fault::Listed(ListFault::NotReaching(_))) => 2,
        Err(Fault::Magic) => 3,
        Err(Fault::OtherLength) => 4,
        Err(Fault::OtherDiagram) => 5,
        Err(Fault::Budget) => 6,
        Err(Fault::Truncated) => 7,
        Err(Fault::Read) => 8,
        Err(Fault::UnknownRecord(_)) => 9,
        Err(Fault::UnknownBound(_)) => 10,
        Err(Fault::CutFails(_)) => 11,
        Err(Fault::RefUnknown) => 12,
        Err(Fault::RefDiffers) => 13,
        Err(Fault::RefFertile) => 14,
        Err(Fault::TooManyNamed) => 15,
        Err(Fault::Memory) => 16,
        Err(Fault::Shorter(_)) => 17,
        Err(Fault::Unlisted(_)) => 18,
        Err(Fault::Trailing) => 19,
    }
}

impl Tally {
    // A tally of no answer.
    pub(crate) fn new() -> Tally {
        Tally { counts: [0; 20] }
    }

    // Counts an answer.
    pub(crate) fn add(&mut self, answer: &Result<Proved, Fault>) {
        if let Some(count) = self.counts.get_mut(place(answer)) {
            *count = count.saturating_add(1);
        }
    }

    // Each answer's name and number, a line each.
    pub(crate) fn print(&self, rt: &HostRuntime) -> anyhow::Result<()> {
        for (name, count) in NAMES.iter().zip(self.counts.iter()) {
            println!(rt; "{name} {count}")?;
        }
        Ok(())
    }
}
