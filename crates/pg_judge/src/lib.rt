//! The problems of a tourney, one after the other: a line is read, the problem is judged, and a row says what was
//! found.
#![tactic(auto)]

mod drawing;
mod enough;
mod entry;
mod entry_fault;
mod given;
mod judging;
mod leading;
mod limits;
mod old;
mod progress;
mod reach;
mod rechecking;
mod report;
mod rows;
mod ruling;
mod scratch;
mod searching;
mod shorter;
mod tolling;

pub use entry::{BadMove, Entry, read_entry, unmarked};
pub use entry_fault::EntryFault;
pub use given::{Given, given_to};
pub use judging::{Pending, judge};
pub use limits::{Enough, Limits};
pub use old::{Old, Unsettled, unsettled_of};
pub use progress::{Effort, JudgeProgress};
pub use rechecking::{recheck, time_is_over};
pub use report::write_finding;
pub use rows::write_row;
pub use ruling::{Evidence, Finding, Known, Means, Reason, Ruling, is_sound};
pub use scratch::Scratch;
pub use tolling::{Prepared, judge_by_tolls, prepare_tolls};
