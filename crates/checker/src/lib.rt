// The check of a certificate text for a history text.

#![tactic(auto)]

pub mod answer;
pub mod check;
pub mod checked;
pub mod place;
