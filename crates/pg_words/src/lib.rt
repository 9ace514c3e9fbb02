//! The words that the program understands, and the helps that it prints: the commands as `clap` reads them.
#![tactic(auto)]

mod commands;

pub use commands::pg;
