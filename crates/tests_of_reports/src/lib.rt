//! Tests of what no contract of `pg_report`, `pg_guide`, `pg_page`, `pg_sentences` and `pg_judge` says. They stand apart,
//! since a crate that has tests is proved twice, without them and with them.
#![tactic(auto)]

#[cfg(test)]
mod guide;
#[cfg(test)]
mod judge;
#[cfg(test)]
mod page;
#[cfg(test)]
mod report;
#[cfg(test)]
mod shared;
#[cfg(test)]
mod words;
