// The two lines that the program prints: the names, and the values of a verdict.

#![tactic(auto)]

pub mod line;
pub mod print;
