//! Least totals of assignments, exactly: each row gets a column of its own. Prices that show one are found too, and
//! nothing is proved of those.
#![tactic(auto)]

mod columns;
mod costs;
mod exact;
mod prices;
mod propose;
mod slacks;
mod tested;
mod totals;
mod ways;
mod with;
mod with_all;

pub use costs::{Costs, NONE};
pub use prices::{LeastPrices, least_columns, least_prices};
pub use tested::least_total;
pub use totals::{LeastTotals, least_totals};
pub use with_all::least_with_all;
