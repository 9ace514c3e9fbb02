//! The price lists of a certificate's record: numbers for sources and targets, one list for each way.
#![tactic(auto)]

mod prices;

pub use prices::Prices;
