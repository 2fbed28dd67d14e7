// 16 of several views, and of converge's one: what a replay may leave out, and the lowest view or event that is wrong.

#![tactic(auto)]

pub mod cut;
pub mod deciding;
pub mod object;
pub mod search;
