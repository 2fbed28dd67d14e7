// From converge to weak: the view cut to past(e) and e.
ghost use Rattle.std.specs.Prelude.{◌≡◌, ◌≤◌, length};
ghost use Rattle.criteria.specs.Tests.{keep, table};
ghost use Rattle.criteria.specs.History.{past_with};
ghost use Rattle.orders.specs.Rows.{in_rows};
ghost use Rattle.weakened.specs.Steps.{view_rows_of};

use crate::views::{ViewRows, view_rows};
use orders::sets::with_event;
use orders::views::View;

// The views of the events of an order, by its rows: the view, cut to the event's row and it.
pub fn cut_views(view: &View, order: &[u64]) -> ViewRows
    requires { length order.now ≤ 64 }
    ensures { result ≡ view_rows_of (table (length order.now) (λ e. keep (past_with (in_rows order.now) e) view.now.events.now)) }
{
    view_rows(order.len(), |e| view.cut_to(with_event(order[e], e)))
}
