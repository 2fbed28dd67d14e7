// The order of a certificate, and faults 11 to 13.
ghost use Rattle.std.specs.Prelude.{◌≡◌, ℕ, ◌≤◌, ◌<◌, true, cond, map, length, get_or};
ghost use Rattle.history.specs.Record.{no_event};
ghost use Rattle.certificate.specs.Record.{no_list, entries_in};
ghost use Rattle.certificate.specs.Criteria.{has_pasts};
ghost use Rattle.criteria.specs.Certificate.{listed};
ghost use Rattle.orders.specs.Rows.{in_rows, ShortList};
ghost use Rattle.faults.specs.Finding.{finding_of};
ghost use Rattle.faults.specs.Steps.{order_fault};

use crate::finding::Finding;
use certificate::criterion::has_pasts;
use certificate::record::{Criterion, EventList};
use history::record::{Event, EventNo};
use orders::listed::past_rows;
use orders::rows::{in_own_past, lacks_own, not_transitive};

// The process of each event.
// Tried: `events.map(|e| e.process.0)` is proved too, but copies the events and clears a record for the answers.
pub fn processes_of(events: &[Event; 64]) -> [u8; 64]
    ensures { (e : ℕ) → e < 64 → get_or result e 0 ≡ (get_or events.now e no_event).process.0 }
{
    let mut processes = [0u8; 64];
    for (e, event) in events.iter().enumerate() {
        processes[e] = event.process.0;
    }
    processes
}

// The rows of the order of a certificate: that of its pasts, or program order where the criterion has none.
pub(crate) fn order_rows(c: Criterion, pasts: &[EventList], program: [u64; 64]) -> [u64; 64]
    requires { (length pasts.now ≤ 64) × (has_pasts c ≡ true → (k : ℕ) → k < length pasts.now → ShortList (get_or pasts.now k no_list)) }
    ensures { (a b : ℕ) → in_rows result a b ≡ cond (has_pasts c) (listed (map entries_in pasts.now) a b) (in_rows program a b) }
{
    if has_pasts(c) {
        past_rows(pasts)
    } else {
        program
    }
}

// 11, 12 and 13 of the first n events, in this order; `must` is program order.
// Kept: an order is all its rows; n says how many events are asked: none where a criterion has no pasts.
pub(crate) fn order_fault(rows: &[u64; 64], must: &[u64; 64], n: usize) -> Result<(), Finding>
    requires { n ≤ 64 }
    ensures { finding_of result ≡ order_fault rows.now must.now n }
{
    if let Some(e) = lacks_own(rows, must, n) {
        return Err(Finding::LacksOwn(EventNo(e as u8)));
    }
    if let Some(e) = in_own_past(rows, n) {
        return Err(Finding::InOwnPast(EventNo(e as u8)));
    }
    if let Some(e) = not_transitive(rows, n) {
        return Err(Finding::LacksPast(EventNo(e as u8)));
    }
    Ok(())
}
