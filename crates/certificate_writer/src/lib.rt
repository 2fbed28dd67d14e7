// Writing a certificate of a history: the text of a record and its rows within their limits.
// Kept: nothing here is a `Display`: the clauses say which bytes stand in the part and behind them, and there is no heap.
// Kept: `count ≤ 64` is a bound of one number, asked where an array is cut by it; a struct for it would be opened in each function, and so
// would `Part` of certificate, which has a sort besides, as no row here has.

#![tactic(auto)]

mod events;
pub mod limits;
pub mod line;
pub mod lines;
pub mod write;
