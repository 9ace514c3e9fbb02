//! A page, as one file of HTML, that shows what a certificate proves and what it has at each position. That `page`
//! answers Ok means that the certificate proves some games the exact answer to its problem, and that the page begins
//! with the verdict on them and with each of them.
#![tactic(auto)]

mod board;
mod fault;
mod floors;
mod heading;
mod lines;
mod log;
mod paging;
mod reasons;
mod script;
mod style;
mod telling;

pub use fault::PageFault;
pub use heading::{Caption, write_checked};
pub use paging::page;
