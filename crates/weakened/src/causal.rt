// From causal to pram: the view of the process's last event, then all other events rising.
ghost use Rattle.std.specs.Prelude.{◌≡◌, ℕ, ◌+◌, ◌≤◌, ◌<◌, ◌++◌, length, get_or, MatchOption};
ghost use Rattle.certificate.specs.Record.{event_list_of};
ghost use Rattle.criteria.specs.Tests.{table, count};
ghost use Rattle.criteria.specs.Weaken.{completed};
ghost use Rattle.orders.specs.Rows.{view_at, EventViews};
ghost use Rattle.weakened.specs.Steps.{view_rows_of, last_in};

use crate::list::rising;
use crate::views::{ViewRows, view_rows};
use certificate::record::EventList;
use orders::sets::others;
use orders::views::{View, Views};

// The last of the events, by their processes, that is of the process.
fn last_of(processes: &[u8], p: u8) -> Option<usize>
    ensures { MatchOption result ((k : ℕ) → k < length processes.now → get_or processes.now k 0 ≡ p → ⊥) (λ e. (e < length processes.now) × (get_or processes.now e 0 ≡ p) × ((k : ℕ) → e < k → k < length processes.now → get_or processes.now k 0 ≡ p → ⊥)) }
{
    processes.iter().rposition(|q| *q == p)
}

// The list of the entries of one view and then those of another.
fn joined(first: &[u8], second: &[u8]) -> EventList
    requires { length first.now + length second.now ≤ 64 }
    ensures { result ≡ event_list_of (first.now ++ second.now) }
{
    let count = first.len() + second.len();
    let mut events = [0u8; 64];
    events[..first.len()].copy_from_slice(first);
    events[first.len()..count].copy_from_slice(second);
    EventList { count, events }
}

// The events of a view, none twice, then all others of n events, rising.
fn completed_view(view: &View, n: usize) -> EventList
    requires { (n ≤ 64) × ((i : ℕ) → i < length view.now.events.now → get_or view.now.events.now i 0 < n) × ((e : ℕ) → count e view.now.events.now ≤ 1) }
    ensures { (result ≡ event_list_of (completed n view.now.events.now)) × (result.count ≤ 64) }
{
    let behind = rising(others(view.marks()), n);
    joined(view.events, behind.entries())
}

// The view of the last event, by the processes of the events, that is of process p, completed; the first view where there is none.
// Kept: what is asked of the views (as many as the events, entries below, none twice) stands in two contracts, this one and that of
// `completed_views`; `completed_view` asks it of one view. A struct for two functions would be opened in each.
fn completed_last(processes: &[u8], views: &Views, p: u8) -> EventList
    requires { (length processes.now ≤ length views.now.numbers.now) × (0 < length processes.now) × EventViews views.now.rows.now views.now.lengths.now (length processes.now) (length processes.now) × ((k : ℕ) → k < length processes.now → (e : ℕ) → count e (view_at views.now.rows.now views.now.lengths.now k) ≤ 1) }
    ensures { (result ≡ event_list_of (completed (length processes.now) (view_at views.now.rows.now views.now.lengths.now (last_in (length processes.now) processes.now p)))) × (result.count ≤ 64) }
{
    let last = last_of(processes, p).unwrap_or(0);
    completed_view(&views.get(last), processes.len())
}

// The views of the processes, whose numbers these are, of the views of the events of these processes.
pub fn completed_views(processes: &[u8], views: &Views, numbers: &[u8]) -> ViewRows
    requires { (length processes.now ≤ length views.now.numbers.now) × (length numbers.now ≤ 64) × (length processes.now ≡ 0 → length numbers.now ≡ 0) × EventViews views.now.rows.now views.now.lengths.now (length processes.now) (length processes.now) × ((k : ℕ) → k < length processes.now → (e : ℕ) → count e (view_at views.now.rows.now views.now.lengths.now k) ≤ 1) }
    ensures { result ≡ view_rows_of (table (length numbers.now) (λ k. completed (length processes.now) (view_at views.now.rows.now views.now.lengths.now (last_in (length processes.now) processes.now (get_or numbers.now k 0))))) }
{
    view_rows(
        numbers.len(),
        |k| completed_last(processes, views, numbers[k]),
    )
}
