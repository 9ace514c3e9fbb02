//! Tests of what no contract of `pg_files`, `pg_streams` and `pg_hints` says. They stand apart, since a crate that has
//! tests is proved twice, without them and with them. What the commands say is tried on the built program, by scripts.
#![tactic(auto)]

#[cfg(test)]
mod deadlines;
#[cfg(test)]
mod drafts;
#[cfg(test)]
mod gathering;
#[cfg(test)]
mod hints;
#[cfg(test)]
mod inputs;
#[cfg(test)]
mod limits;
#[cfg(test)]
mod lines;
#[cfg(test)]
mod mistakes;
#[cfg(test)]
mod pgn;
#[cfg(test)]
mod problems;
#[cfg(test)]
mod searching;
#[cfg(test)]
mod shared;
#[cfg(test)]
mod single_bytes;
