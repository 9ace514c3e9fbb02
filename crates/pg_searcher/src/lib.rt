//! The searcher of certificates: it walks the legal games to a diagram, cuts where a bound excludes,
//! and writes down what it met. Nothing that it answers is trusted: a certificate counts when it has
//! been checked.
#![tactic(auto)]

mod budget;
mod choosing;
mod ends;
mod expected;
mod fault;
mod find;
mod judge;
mod known;
mod led;
mod machine;
mod met;
mod nearing;
mod node;
mod outlook;
mod progress;
mod sides;
mod tariffs;
mod tolled;
mod unkept;
mod walk;

pub use expected::{Leeway, forecast, next_tree, slacks};
pub use fault::SearchFault;
pub use find::{search, search_by_journeys, search_by_tolls, search_watched};
pub use judge::sides_of;
pub use led::{
    Game, Led, LedEnd, LedFault, LedLimits, LedProgress, search_led, search_led_without_journeys,
};
pub use met::Met;
pub use nearing::may_lead;
pub use progress::SearchProgress;
pub use sides::{Change, Changes, Side, Sides, changes_of};
pub use tariffs::{FoundTariffs, find_tariffs};
