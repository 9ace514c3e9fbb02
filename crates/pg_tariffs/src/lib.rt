//! Tariffs as a search uses them: which of many excludes a node, and the search for new ones. Nothing that this crate
//! answers is trusted: a bound by a tariff is sound whatever the tariff, and a certificate counts when it has been
//! checked.
#![tactic(auto)]

mod blocks;
mod entries;
mod finding;
mod limits;
mod memory;
mod orders;
mod points;
mod probing;
mod tariffs;

pub use tariffs::{Keys, Tariffs};
