// Reading a certificate text, given its history text.
// Kept: `length events.now ≤ 64` of four contracts: a bound of one slice, for `view_numbers`; a struct for it would be opened in each.

#![tactic(auto)]

mod left;
pub mod read;
