// The history record, and the lines of a history text: the words, the fields, and what a line of an object or of an event
// is. It knows nothing of criteria.

#![tactic(auto)]

pub mod answer;
pub mod event;
pub mod fault;
pub mod field;
pub mod next;
pub mod object;
pub mod record;
pub mod word;
