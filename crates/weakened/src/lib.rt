// The lists of a weakened certificate: pasts, and views as rows with their lengths beside.

#![tactic(auto)]

pub mod causal;
pub mod converge;
pub mod list;
pub mod sequential;
pub mod strict;
pub mod views;
