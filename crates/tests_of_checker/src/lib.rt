//! Tests of what no contract of `pg_trial`, `pg_certificate` and `pg_checker` says. They stand apart, since a crate
//! that has tests is proved twice, without them and with them.
#![tactic(auto)]

#[cfg(test)]
mod certificate;
#[cfg(test)]
mod checker;
#[cfg(test)]
mod nearness;
#[cfg(test)]
mod shared;
#[cfg(test)]
mod trial;
