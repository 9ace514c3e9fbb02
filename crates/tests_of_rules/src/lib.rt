//! Tests of what no contract of `pg_board`, `pg_position`, `pg_moves`, `pg_fen` and `pg_san` says. They stand
//! apart, since a crate that has tests is proved twice, without them and with them.
#![tactic(auto)]

#[cfg(test)]
mod board;
#[cfg(test)]
mod fen;
#[cfg(test)]
mod moves;
#[cfg(test)]
mod position;
#[cfg(test)]
mod san;
#[cfg(test)]
mod texts;
