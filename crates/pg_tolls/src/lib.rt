//! The bound by tolls: what a capture on a square costs the one colour, it spares the other.
#![tactic(auto)]

mod bills;
mod closed;
mod excluding;
mod fares;
mod filling;
mod half;
mod laws;
mod leasts;
mod making;
mod memory;
mod plans;
mod rows;
mod tables;
mod tariff;
mod tolls;
mod values;
mod walking;

pub use fares::{Fares, ground_of_walls};
pub use laws::{accounts_law, tariff_law, tolls_bound_law};
pub use leasts::Leasts;
pub use plans::Plan;
pub use tariff::Tariff;
pub use tolls::Tolls;
