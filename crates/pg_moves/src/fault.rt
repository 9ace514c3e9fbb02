//! Why games are not counted.

use thiserror::Error;

/// Why games are not counted.
#[derive(Debug, Clone, Copy, PartialEq, Eq, Error)]
pub enum CountFault {
    /// More than 8 plies were asked for.
    #[error("more than 8 plies")]
    TooDeep,
    /// There are more games than 64 bits hold.
    #[error("count too large")]
    Overflow,
    /// Memory was refused.
    #[error("out of memory")]
    Memory,
}
