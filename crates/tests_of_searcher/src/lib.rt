//! Tests of what no contract of `pg_searcher` says. They stand apart, since a crate
//! that has tests is proved twice, without them and with them.
#![tactic(auto)]

#[cfg(test)]
mod by_nodes;
#[cfg(test)]
mod drawn;
#[cfg(test)]
mod expected;
#[cfg(test)]
mod led;
#[cfg(test)]
mod nearing;
#[cfg(test)]
mod searcher;
#[cfg(test)]
mod shared;
#[cfg(test)]
mod sides;
