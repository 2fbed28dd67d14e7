// The events in one line, by their places.
ghost use Rattle.std.specs.Prelude.{◌≡◌, ℕ, suc, ◌+◌, ◌≤◌, ◌<◌, length, get_or};
ghost use Rattle.certificate.specs.Record.{event_list_of};
ghost use Rattle.criteria.specs.OneLine.{tally, by_place};
ghost use Rattle.orders.specs.Rows.{in_row};
ghost use Rattle.one_line.specs.Steps.{place_in};

use crate::order::Order;
use certificate::list::no_list;
use certificate::record::EventList;
use orders::sets::{both, in_row};

// How many events are in a row.
fn count_of(row: u64) -> u8
    ensures { (result ≡ tally 64 (in_row row)) × (result ≤ 64) }
{
    row.count_ones() as u8
}

// The place of event e: behind the updates of its past, one further if it is an update itself.
fn place_of(order: &Order, e: usize) -> u8
    requires { e < 64 }
    ensures { result ≡ place_in order.now.pasts order.now.updates e }
{
    let before = count_of(both(order.pasts[e], order.updates));
    let own = u8::from(in_row(order.updates, e));
    2 * before + own
}

// The places of the events.
// Tried: `array::from_fn(|e| place_of(order, e))` captures the order, and `rt ci` refuses the crate, since it cannot write the statements
// of such a crate for those above.
pub(crate) fn places_of(order: &Order) -> [u8; 64]
    ensures { (length result ≡ 64) × ((e : ℕ) → e < order.now.size → get_or result e 0 ≡ place_in order.now.pasts order.now.updates e) }
{
    let mut places = [0; 64];
    for e in 0..order.size {
        places[e] = place_of(order, e);
    }
    places
}

// Puts the events at place m, rising, behind the line of those with places below m.
fn with_place(line: &mut EventList, places: &[u8], m: u8)
    requires { (length places.now ≤ 64) × (line.old ≡ event_list_of (by_place (length places.now) (λ e. get_or places.now e 0) m)) }
    ensures { line.new ≡ event_list_of (by_place (length places.now) (λ e. get_or places.now e 0) (suc m)) }
{
    for (e, place) in places.iter().enumerate() {
        if *place == m {
            line.push(e as u8);
        }
    }
}

// The events by their places.
pub(crate) fn by_place(places: &[u8]) -> EventList
    requires { length places.now ≤ 64 }
    ensures { (result ≡ event_list_of (by_place (length places.now) (λ e. get_or places.now e 0) (length places.now + length places.now + 2))) × (result.count ≤ 64) }
{
    let mut line = no_list();
    for m in 0..2 * places.len() + 2 {
        with_place(&mut line, places, m as u8);
    }
    line
}
