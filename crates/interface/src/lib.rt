// The operations as numbers, lengths and bytes: what the C interface has. The crate interface_c exports them, and include/walnutgleam.h
// declares them.

#![tactic(auto)]

pub mod check;
pub mod made;
pub mod rewrite;
pub mod sequential;
pub mod weaken;
