// Faults 14, 15 and 20.
ghost use Rattle.std.specs.Prelude.{◌≡◌, ◌≤◌, ◌<◌, cond, eqb, length, get_or, IfSome};
ghost use Rattle.layout.specs.Options.{option_in};
ghost use Rattle.certificate.specs.Steps.Numbers.{event_each};
ghost use Rattle.criteria.specs.Tests.{lowest, found_if};
ghost use Rattle.criteria.specs.Certificate.{is_strict};
ghost use Rattle.criteria.specs.Check.{not_its_set, outside_past};
ghost use Rattle.orders.specs.Rows.{in_rows, view_at};
ghost use Rattle.faults.specs.Finding.{finding_of};
ghost use Rattle.faults.specs.Steps.{set_at, view_fault};

use crate::finding::Finding;
use certificate::numbers::event_each;
use certificate::record::Criterion;
use orders::searches::{first_against, first_not_all, first_not_past, first_outside};
use orders::views::Views;

// The lowest view that is not its set, each once; there are n events.
// Kept: an order is all its rows, of which the first n are of events, here and in `view_fault`.
fn first_not_set(criterion: Criterion, views: &Views, rows: &[u64; 64], n: usize) -> Option<usize>
    requires { n ≤ 64 }
    ensures found { option_in result ≡ lowest (length views.now.numbers.now) (λ k. found_if (not_its_set 64 (set_at (event_each criterion) rows.now n k) (view_at views.now.rows.now views.now.lengths.now k)) k) }
    ensures below { IfSome result (λ k. k < length views.now.numbers.now) }
{
    if event_each(criterion) {
        first_not_past(views, rows)
    } else {
        first_not_all(views, n)
    }
}

// The lowest view of strict in which an event outside the past stands before an own event; no view of another criterion is asked.
fn first_of_strict(
    criterion: Criterion,
    views: &Views,
    rows: &[u64; 64],
    processes: &[u8; 64],
) -> Option<usize>
    ensures found { option_in result ≡ lowest (cond (is_strict criterion) (length views.now.numbers.now) 0) (λ k. found_if (outside_past (in_rows rows.now) (λ e. eqb (get_or processes.now e 0) (get_or views.now.numbers.now k 0)) (view_at views.now.rows.now views.now.lengths.now k)) k) }
    ensures below { IfSome result (λ k. k < length views.now.numbers.now) }
{
    if criterion == Criterion::Strict {
        first_outside(views, rows, processes)
    } else {
        None
    }
}

// 14 and 15 of the views of a certificate and 20 of those of strict, in this order; `rows` are the order of the n events of these
// processes.
// Kept: criterion, views and rows in four functions, here and in `replayed`: a struct of them would be built once, in `check_records`, and
// opened in each.
pub(crate) fn view_fault(
    criterion: Criterion,
    views: &Views,
    rows: &[u64; 64],
    processes: &[u8; 64],
    n: usize,
) -> Result<(), Finding>
    requires { n ≤ 64 }
    ensures { finding_of result ≡ view_fault (event_each criterion) views.now.rows.now views.now.lengths.now views.now.numbers.now rows.now processes.now (length views.now.numbers.now) (cond (is_strict criterion) (length views.now.numbers.now) 0) n }
{
    if let Some(k) = first_not_set(criterion, views, rows, n) {
        return Err(Finding::NotItsSet(views.numbers[k]));
    }
    if let Some(k) = first_against(views, rows) {
        return Err(Finding::Against(views.numbers[k]));
    }
    if let Some(k) = first_of_strict(criterion, views, rows, processes) {
        return Err(Finding::OutsidePast(views.numbers[k]));
    }
    Ok(())
}
