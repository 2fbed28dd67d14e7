// The replay of a view.

#![tactic(auto)]

pub mod light;
pub mod replay;
pub mod visible;
