// From strict: each event's view is its process's view up to and with it.
ghost use Rattle.std.specs.Prelude.{◌≡◌, ℕ, ◌≤◌, ◌<◌, length, get_or};
ghost use Rattle.certificate.specs.Record.{event_list_of};
ghost use Rattle.criteria.specs.Tests.{table, place};
ghost use Rattle.criteria.specs.Weaken.{up_to_in};
ghost use Rattle.orders.specs.Rows.{view_at};
ghost use Rattle.weakened.specs.Steps.{view_rows_of};

use crate::list::{list_of, place_of, up_to_event};
use crate::views::{ViewRows, view_rows};
use certificate::list::no_list;
use certificate::record::EventList;
use orders::views::Views;

// The part up to and with event e of the view whose number is p.
fn own_part(views: &Views, p: u8, e: u8) -> EventList
    requires { place p views.now.numbers.now < length views.now.numbers.now }
    ensures { (result ≡ event_list_of (up_to_in (view_at views.now.rows.now views.now.lengths.now (place p views.now.numbers.now)) e)) × (result.count ≤ 64) }
{
    match place_of(views.numbers, p) {
        Some(at) => list_of(up_to_event(views.get(at).events, e)),
        None => no_list(),
    }
}

// The views of the events of these processes, of views whose numbers are those of the processes.
pub fn own_parts(processes: &[u8], views: &Views) -> ViewRows
    requires { (length processes.now ≤ 64) × ((e : ℕ) → e < length processes.now → place (get_or processes.now e 0) views.now.numbers.now < length views.now.numbers.now) }
    ensures { result ≡ view_rows_of (table (length processes.now) (λ e. up_to_in (view_at views.now.rows.now views.now.lengths.now (place (get_or processes.now e 0) views.now.numbers.now)) e)) }
{
    view_rows(processes.len(), |e| own_part(views, processes[e], e as u8))
}
