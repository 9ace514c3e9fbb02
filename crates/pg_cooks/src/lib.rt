//! What is known without a certificate: what a list of games shows by itself, and the games beside it that a
//! search finds, each tested before it is told.
#![tactic(auto)]

mod fault;
mod finding;
mod laws;
mod parting;
mod run;
mod standing;
mod writing;

pub use fault::{CooksFault, CooksRunFault, ListingFault};
pub use finding::{CookAnswer, cooks};
pub use laws::{not_sound_is_true, shorter_is_a_cook, two_are_a_cook, unlisted_is_a_cook};
pub use parting::{write_apart, write_pair_apart};
pub use run::{run_cooks, run_games, standing_on, write_solutions};
pub use standing::Standing;
pub use writing::{write_cook, write_known, write_shorter, write_standing};

// What a caller needs of the search.
pub use pg_searcher::{LedEnd, LedLimits, LedProgress};
