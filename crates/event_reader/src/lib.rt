// The next line of an event in a history text.

#![tactic(auto)]

pub mod next;
