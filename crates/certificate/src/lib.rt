// The certificate record, and the lines of a certificate text: the criterion, the numbers of the views, and lists of events.
// Kept: a criterion is no `Display`: its word is a `&'static [u8]` (word.rt), as the texts are bytes, and there is no heap.

#![tactic(auto)]

pub mod criterion;
pub mod list;
pub mod next;
pub mod numbers;
pub mod record;
pub mod word;
