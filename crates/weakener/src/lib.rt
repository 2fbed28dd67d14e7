// A certificate text made of an accepted one: weakened, or in one line of stock.

#![tactic(auto)]

pub mod made;
pub mod pairs;
pub mod sequential;
pub mod weaken;
