// From sequential: past(e) is what precedes e; views are the whole order, or its part up to and with e.
ghost use Rattle.std.specs.Prelude.{◌≡◌, ℕ, ◌≤◌, ◌<◌, true, map, length};
ghost use Rattle.history.specs.Record.{pad};
ghost use Rattle.certificate.specs.Record.{no_list, event_list_of};
ghost use Rattle.criteria.specs.Tests.{keep, up_to, table, mem};
ghost use Rattle.criteria.specs.Weaken.{precedes, pasts_of, up_to_in};
ghost use Rattle.weakened.specs.Steps.{view_rows_of};

use crate::list::{before_event, list_of, rising, up_to_event};
use crate::views::{ViewRows, view_rows};
use certificate::list::no_list;
use certificate::record::EventList;
use orders::views::View;

// The events that precede e, rising.
fn preceding(view: &View, e: u8) -> EventList
    requires { mem e view.now.events.now ≡ true }
    ensures { result ≡ event_list_of (keep (λ f. precedes view.now.events.now f e) (up_to (length view.now.events.now))) }
{
    let before = View {
        events: before_event(view.events, e),
    };
    rising(before.marks(), view.events.len())
}

// The pasts of the events of the view.
pub fn preceding_pasts(view: &View) -> [EventList; 64]
    requires { (e : ℕ) → e < length view.now.events.now → mem e view.now.events.now ≡ true }
    ensures { result ≡ pad 64 no_list (map event_list_of (pasts_of (length view.now.events.now) (precedes view.now.events.now))) }
{
    let mut pasts = [no_list(); 64];
    for e in 0..view.events.len() {
        pasts[e] = preceding(view, e as u8);
    }
    pasts
}

// The views of the events, each the part of the view up to and with its event.
pub fn up_to_views(view: &[u8]) -> ViewRows
    requires { length view.now ≤ 64 }
    ensures { result ≡ view_rows_of (table (length view.now) (up_to_in view.now)) }
{
    view_rows(view.len(), |e| list_of(up_to_event(view, e as u8)))
}

// m views, each the whole view.
pub fn whole_views(view: &[u8], m: usize) -> ViewRows
    requires { (length view.now ≤ 64) × (m ≤ 64) }
    ensures { result ≡ view_rows_of (table m (λ _. view.now)) }
{
    view_rows(m, |_| list_of(view))
}
