//! A search for two games of a bare diagram: it goes into the tree of the stated length alone, children in the order of
//! the least travel that is left, with ties by drawn numbers, and starts anew after a number of nodes. Nothing that it
//! answers is trusted: a game counts when it has been tested.
#![tactic(auto)]

mod answer;
mod child;
mod closed;
mod judge;
mod known;
mod last;
mod machine;
mod meeting;
mod opening;
mod starts;
mod walk;

pub use answer::{Drawn, DrawnEnd, DrawnFault, DrawnLimits};
pub use starts::search_drawn;
