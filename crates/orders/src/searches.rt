// The lowest view that is not its set, is against the order, or has an event outside the past before an own event.
ghost use Rattle.std.specs.Prelude.{◌≡◌, ◌||◌, ℕ, ◌≤◌, ◌<◌, eqb, ltb, length, get_or, IfSome};
ghost use Rattle.layout.specs.Options.{option_in};
ghost use Rattle.criteria.specs.Tests.{lowest, found_if, count};
ghost use Rattle.criteria.specs.Check.{not_its_set, against, outside_past};
ghost use Rattle.orders.specs.Rows.{in_row, in_rows, view_at};

use crate::sets::with_event;
use crate::views::Views;

// The row of the first n events.
fn all_row(n: usize) -> u64
    requires { n ≤ 64 }
    ensures { (e : ℕ) → in_row result e ≡ ltb e n }
{
    let mut row = 0;
    for i in 0..n {
        row = with_event(row, i);
    }
    row
}

// 14: the lowest view that is not all n events, each once.
pub fn first_not_all(views: &Views, n: usize) -> Option<usize>
    requires { n ≤ 64 }
    ensures found { option_in result ≡ lowest (length views.now.numbers.now) (λ k. found_if (not_its_set 64 (λ e. ltb e n) (view_at views.now.rows.now views.now.lengths.now k)) k) }
    ensures below { IfSome result (λ k. k < length views.now.numbers.now) }
{
    let all = all_row(n);
    (0..views.count()).find(|&k| views.get(k).not_its_set(all))
}

// 14: the lowest view that is not the past of its event and that event, each once.
pub fn first_not_past(views: &Views, rows: &[u64; 64]) -> Option<usize>
    ensures found { option_in result ≡ lowest (length views.now.numbers.now) (λ k. found_if (not_its_set 64 (λ f. in_rows rows.now f k || eqb f k) (view_at views.now.rows.now views.now.lengths.now k)) k) }
    ensures below { IfSome result (λ k. k < length views.now.numbers.now) }
{
    (0..views.count()).find(|&k| views.get(k).not_its_set(with_event(rows[k], k)))
}

// 15: the lowest view, of views with no entry twice, that is against the order.
pub fn first_against(views: &Views, rows: &[u64; 64]) -> Option<usize>
    requires { (k : ℕ) → k < length views.now.numbers.now → (e : ℕ) → count e (view_at views.now.rows.now views.now.lengths.now k) ≤ 1 }
    ensures found { option_in result ≡ lowest (length views.now.numbers.now) (λ k. found_if (against (in_rows rows.now) (view_at views.now.rows.now views.now.lengths.now k)) k) }
    ensures below { IfSome result (λ k. k < length views.now.numbers.now) }
{
    (0..views.count()).find(|&k| views.get(k).against(rows))
}

// 20: the lowest view in which an event outside the past stands before an own event. The own events of a view are those of the process
// that numbers it.
pub fn first_outside(views: &Views, rows: &[u64; 64], processes: &[u8; 64]) -> Option<usize>
    ensures found { option_in result ≡ lowest (length views.now.numbers.now) (λ k. found_if (outside_past (in_rows rows.now) (λ e. eqb (get_or processes.now e 0) (get_or views.now.numbers.now k 0)) (view_at views.now.rows.now views.now.lengths.now k)) k) }
    ensures below { IfSome result (λ k. k < length views.now.numbers.now) }
{
    (0..views.count()).find(|&k| views.get(k).outside_past(rows, processes, views.numbers[k]))
}
