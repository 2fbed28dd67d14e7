// The parts of a line: how bytes are cut into lines, fields and items, and how words, numbers and comma lists are
// spelt, read and written. Everything above knows these functions by their contracts alone.
// Kept: nothing here is a `Display`: the clauses say which bytes stand in the part and behind them, and there is no heap.
// Kept: `bound ≤ 4294967296` of nine contracts is a bound of one number, and no type of its own: `is_spelling` reads below 2^32, which
// no u32 holds.

#![tactic(auto)]

pub mod fields;
pub mod fill;
pub mod line;
pub mod list;
pub mod number;
pub mod pieces;
pub mod split;
pub mod word;
