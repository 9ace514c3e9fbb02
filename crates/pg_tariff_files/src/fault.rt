//! Why the tariffs of a file are not read.

use thiserror::Error;

/// Why the tariffs of a file are not read. The first of these is told that is met from the front of the file on.
#[derive(Clone, Copy, Debug, PartialEq, Eq, Error)]
pub enum CarriedFault {
    /// A read has failed.
    #[error("read fault")]
    Read,
    /// Their number is 0, or above 250.
    #[error("tariffs: their number is not 1 to 250")]
    Number,
    /// The file ends before their number, or before the last of them does.
    #[error("tariffs: the file is cut off")]
    Truncated,
    /// A growth was refused.
    #[error("out of memory")]
    Memory,
}
