// Fault 16.
ghost use Rattle.std.specs.Prelude.{◌≡◌, ◌≤◌, true, length};
ghost use Rattle.history.specs.Record.{events_in};
ghost use Rattle.history.specs.Readable.{within};
ghost use Rattle.certificate.specs.Record.{beginnings};
ghost use Rattle.certificate.specs.Criteria.{view_numbers};
ghost use Rattle.criteria.specs.Check.{find16};
ghost use Rattle.criteria.specs.Records.{history_of};
ghost use Rattle.orders.specs.Rows.{in_rows, EventViews};
ghost use Rattle.faults.specs.Finding.{finding_of};

use crate::finding::Finding;
use certificate::record::Criterion;
use history::record::History;
use objects::starts::starts;
use orders::views::Views;
use replayed_views::cut::first_wrong_cut;
use replayed_views::search::first_wrong;
use replays::light::light_history;
use replays::visible::visible_views;

// 16 of the views of a certificate; `rows` are the order, which converge cuts its view by.
pub(crate) fn replay_fault(
    h: &History,
    criterion: Criterion,
    views: &Views,
    rows: &[u64; 64],
) -> Result<(), Finding>
    requires { (within h.now ≡ true) × (views.now.numbers.now ≡ view_numbers criterion (events_in h.now)) × EventViews views.now.rows.now views.now.lengths.now (length views.now.numbers.now) h.now.count }
    ensures { finding_of result ≡ find16 criterion (history_of h.now) (in_rows rows.now) (beginnings views.now.lengths.now views.now.rows.now) }
{
    let history = light_history(h);
    let begin = starts(h.objects);
    if criterion == Criterion::Converge {
        return match first_wrong_cut(&history, begin, rows, views.get(0).events) {
            Some(e) => Err(Finding::Wrong(views.numbers[0], e)),
            None => Ok(()),
        };
    }
    let who = visible_views(criterion, views.numbers, &history.events);
    match first_wrong(&history, begin, views, &who) {
        Some(place) => Err(Finding::Wrong(views.numbers[place.view], place.event)),
        None => Ok(()),
    }
}
