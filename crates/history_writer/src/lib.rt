// Writing a history: the text of a record within its limits.
// Kept: nothing here is a `Display`: the clauses say which bytes stand in the part and behind them, and there is no heap.

#![tactic(auto)]

pub mod limits;
pub mod line;
pub mod write;
