//! Files that carry tariffs before their certificate.
#![tactic(auto)]

mod carried;
mod fault;
mod stated;
mod writing;

pub use carried::{Carried, MAGIC, MOST, read_carried};
pub use fault::CarriedFault;
pub use stated::{BYTES, number_of, stating, tariff_at, tariffs_of};
pub use writing::{stating_all, write_carried};
