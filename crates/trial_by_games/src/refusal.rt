//! Why a trial ends.
use thiserror::Error;

#[derive(Debug, Drop, Error)]
pub(crate) enum Refusal {
    #[error("trial_by_games GAMES PLIES [FILE NODES], or trial_by_games trees FILE NODES")]
    Usage,
    #[error("game {0} is excluded with {1} plies left")]
    Excluded(u64, u8),
    #[error("game {0} is excluded by a tariff with {1} plies left")]
    ExcludedByTariff(u64, u8),
    #[error("line {0} is no problem with a tariff")]
    Line(u64),
}
