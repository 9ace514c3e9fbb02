//! Why the trial ends with another status.
use thiserror::Error;

// What was wrong with the words and files, or with an answer.
#[derive(Debug, Drop, Error)]
pub(crate) enum Refusal {
    #[error("write names of cases, each with a number of mutants behind it")]
    Usage,
    #[error("a problem or a list is not read")]
    Text,
    #[error("case {0}: its own certificate is refused")]
    Own(usize),
    #[error("case {0}, mutant {1}: a yes to a list that is not exact")]
    Yes(usize, usize),
    #[error("case {0}, mutant {1}: a yes with more records or named nodes than allowed")]
    Limits(usize, usize),
    #[error("case {0}, mutant {1}: an answer that is not true")]
    Untrue(usize, usize),
    #[error("case {0}, mutant {1}: one byte a call gives another answer")]
    OneByte(usize, usize),
    #[error("case {0}, mutant {1}: a read that fails gives another answer")]
    FailedRead(usize, usize),
}
