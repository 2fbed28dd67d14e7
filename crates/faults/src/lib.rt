// Faults 11 to 16 and 20 of a history and a certificate that were read.
// Kept: n ≤ 64 is a bound of one number, how many events are asked (none of 11 to 13 where a criterion has no pasts); a struct for it would
// be opened in each function.

#![tactic(auto)]

pub mod check;
pub mod finding;
pub mod order;
pub mod replayed;
pub mod viewed;
