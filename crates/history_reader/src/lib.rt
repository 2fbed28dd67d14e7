// Reading a history text, and places in the texts.

#![tactic(auto)]

mod objects;
pub mod place;
pub mod read;
