// The updates among the events, and whether an order leaves two of them unordered.
ghost use Rattle.std.specs.Prelude.{◌≡◌, ◌&&◌, ℕ, ◌≤◌, ◌<◌, length, ltb};
ghost use Rattle.criteria.specs.Tests.{any};
ghost use Rattle.orders.specs.Rows.{in_row};
ghost use Rattle.one_line.specs.Steps.{update_in, unordered_to, crosses_at};

use crate::order::Order;
use history::record::Event;
use orders::sets::{in_row, with_event};
use replays::replay::changes;

// The row of the updates among the events.
pub(crate) fn updates_of(events: &[Event]) -> u64
    requires { length events.now ≤ 64 }
    ensures { (e : ℕ) → in_row result e ≡ (ltb e (length events.now) && update_in events.now e) }
{
    let mut row = 0;
    for (i, event) in events.iter().enumerate() {
        if changes(event.op) {
            row = with_event(row, i);
        }
    }
    row
}

// Whether the order leaves event a and some other update unordered.
fn unordered_with(order: &Order, a: usize) -> bool
    requires { a < 64 }
    ensures { result ≡ any order.now.size (unordered_to order.now.pasts order.now.updates a) }
{
    (0..order.size).any(|b| {
        in_row(order.updates, b)
            && a != b
            && !(in_row(order.pasts[b], a) || in_row(order.pasts[a], b))
    })
}

// Whether the order leaves two updates unordered.
pub(crate) fn crossing(order: &Order) -> bool
    ensures { result ≡ any order.now.size (crosses_at order.now.pasts order.now.updates order.now.size) }
{
    (0..order.size).any(|a| in_row(order.updates, a) && unordered_with(order, a))
}
