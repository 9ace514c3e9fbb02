//! Why nothing is measured.

#[derive(Debug, Drop, thiserror::Error)]
pub(crate) enum Fault {
    #[error("bench_jobs JOB SEED SIZE")]
    Usage,
    #[error("a call has no answer: {0}")]
    NoAnswer(&'static str),
}
