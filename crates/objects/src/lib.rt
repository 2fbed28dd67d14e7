// The state of an object in a replay.

#![tactic(auto)]

pub mod starts;
pub mod state;
