//! What the program's streams go through: a buffer over a sink, a limit of bytes over a writer, the line on the
//! terminal that says how far a run is, and the end of its time.
#![tactic(auto)]

mod allowed;
mod amounts;
mod deadline;
mod gathered;
mod judged;
mod led;
mod limited;
mod line;
mod progress;
mod room;
mod runs;
mod trees;
mod until;

pub use allowed::Allowed;
pub use amounts::amount_of;
pub use deadline::{Deadline, Timed, milliseconds_of};
pub use gathered::Gathered;
pub use judged::{JudgeLine, judge_line};
pub use led::{LedLine, led_line};
pub use limited::Limited;
pub use line::{Cleared, Terminal};
pub use progress::{Passing, line_of};
pub use room::Room;
pub use runs::{CountLine, SearchLine, count_line, search_line};
pub use until::Until;
