// Lists of events, and parts of a view.
ghost use Rattle.std.specs.Prelude.{◌≡◌, ◌≤◌, ◌<◌, length, take, position, ◌==◌};
ghost use Rattle.certificate.specs.Record.{event_list_of};
ghost use Rattle.criteria.specs.Tests.{keep, up_to, place};
ghost use Rattle.criteria.specs.Weaken.{up_to_in};
ghost use Rattle.orders.specs.Rows.{in_row};

use certificate::list::no_list;
use certificate::record::EventList;
use orders::sets::in_row;

// The list of the entries of a view, with zeros behind them.
// Kept: a slice, also in `up_to_views` and `whole_views`: a `View` would ask that the entries are below 64, which these do not.
pub(crate) fn list_of(view: &[u8]) -> EventList
    requires { length view.now ≤ 64 }
    ensures { (result ≡ event_list_of view.now) × (result.count ≤ 64) }
{
    let mut events = [0u8; 64];
    events[..view.len()].copy_from_slice(view);
    EventList {
        count: view.len(),
        events,
    }
}

// The place of the first e in a list of numbers.
pub(crate) fn place_of(numbers: &[u8], e: u8) -> Option<usize>
    ensures { result ≡ position (λ x. x == e) numbers.now }
{
    numbers.iter().position(|x| *x == e)
}

// The part of the view before the event; the whole view where it does not stand there.
// Kept: not one function with `up_to_event`: what both have is one match of three lines.
#[tactic(auto, using(crate::proofs::ListLaws::before_none))]
pub(crate) fn before_event(view: &[u8], e: u8) -> &[u8]
    ensures { (result.now ≡ take (place e view.now) view.now) × (length result.now ≤ length view.now) }
{
    match place_of(view, e) {
        Some(k) => &view[..k],
        None => view,
    }
}

// The part of the view up to and with the event; the whole view where it does not stand there.
#[tactic(auto, using(crate::proofs::ListLaws::up_to_none))]
pub(crate) fn up_to_event(view: &[u8], e: u8) -> &[u8]
    ensures { (result.now ≡ up_to_in view.now e) × (length result.now ≤ length view.now) }
{
    match place_of(view, e) {
        Some(k) => &view[..=k],
        None => view,
    }
}

// The events of a row below n, rising.
pub(crate) fn rising(row: u64, n: usize) -> EventList
    requires { n ≤ 64 }
    ensures { (result ≡ event_list_of (keep (in_row row) (up_to n))) × (result.count ≤ n) }
{
    let mut list = no_list();
    for e in 0..n {
        if in_row(row, e) {
            list.push(e as u8);
        }
    }
    list
}
