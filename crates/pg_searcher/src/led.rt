//! The search for another game, led by games that are known. It looks first among the games in which men
//! make the moves that they make there, then among those with one other move, with two, and so on. What it
//! finds is tested by whoever shows it.

mod answer;
mod barren;
mod familiar;
mod last;
mod machine;
mod node;
mod order;
mod plain;
mod rounds;
mod trials;
mod walk;

pub use answer::{Game, Led, LedEnd, LedFault, LedLimits, LedProgress};
pub use rounds::{search_led, search_led_without_journeys};
