//! Tests of what no contract of `pg_assignments`, `pg_captures`, `pg_pawns`, `pg_travel`, `pg_journeys`, `pg_tolls`,
//! `pg_tariffs` and `pg_prices` says. They stand apart, since a crate that has tests is proved twice, without them and
//! with them.
#![tactic(auto)]

#[cfg(test)]
mod assignments;
#[cfg(test)]
mod captures;
#[cfg(test)]
mod journeys;
#[cfg(test)]
mod pawns;
#[cfg(test)]
mod prices;
#[cfg(test)]
mod tariffs;
#[cfg(test)]
mod texts;
#[cfg(test)]
mod tolls;
#[cfg(test)]
mod travel;
