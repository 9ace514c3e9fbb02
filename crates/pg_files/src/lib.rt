//! Files: lists that are read whole, files that are written beside their place, folders that are made, and names as
//! they are shown.
#![tactic(auto)]

mod faults;
mod folders;
mod input;
mod names;
mod unnamed;
mod writing;

pub use faults::{FileFault, Obstacle};
pub use folders::make_folder;
pub use input::{
    MOST_BYTES, first_bytes, is_missing, list, open, open_plain, read_all, read_front, size_of,
};
pub use names::{FileName, INPUT, is_input};
pub use unnamed::nameless;
pub use writing::{Draft, begin, begin_apart, begin_here, lead_to_one, stand_at_one};
