// Orders and views of events, on rows of bits: the rows of an order, and the tests of 11 to 15 and 20.
// Kept: n ≤ 64 and e < 64 are bounds of one number (64 rows, 64 bits of a row; n says how many events are asked: none of the pasts where a
// criterion has none); a struct for it would be opened in each function.

#![tactic(auto)]

pub mod listed;
pub mod rows;
pub mod searches;
pub mod sets;
pub mod views;
