// The records of weakened certificates.

#![tactic(auto)]

pub mod records;
