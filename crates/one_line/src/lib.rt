// One line of stock where updates never cross: whether they cross, and the record of the line.
// Kept: `OrderRead` in three contracts: two records of other crates, taken apart in the first line of each.

#![tactic(auto)]

pub mod line;
mod order;
pub mod record;
pub mod updates;
