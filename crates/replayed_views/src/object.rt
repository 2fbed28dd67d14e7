// The replay of one object's events where one answer is visible.
ghost use Rattle.std.specs.Prelude.{◌≡◌, get_or};
ghost use Rattle.criteria.specs.Tests.{keep, mem};
ghost use Rattle.objects.specs.State.{contents_of};
ghost use Rattle.orders.specs.Rows.{in_row};
ghost use Rattle.replays.specs.Replay.{no_light, history_in, found_event};
ghost use Rattle.replayed_views.specs.Steps.{one_wrong, ObjectRows, ReadyKept};

use history::record::EventNo;
use objects::state::{EventOp, State};
use orders::sets::with_event;
use orders::views::View;
use replays::light::LightHistory;
use replays::replay::Light;

// The row of each object's events.
pub(crate) fn object_rows(events: &[Light; 64]) -> [u64; 16]
    ensures { ObjectRows events.now result }
{
    let mut rows = [0; 16];
    for (e, light) in events.iter().enumerate() {
        let o = usize::from(light.object);
        if o < 16 {
            rows[o] = with_event(rows[o], e);
        }
    }
    rows
}

// Event e, where its answer is not what the replay of the part gives. The part holds events of e's object.
fn replay_object(history: &LightHistory, start: State, part: &[u8], e: EventNo) -> Option<EventNo>
    requires { ReadyKept history.now start part.now (λ f. mem f part.now) e.0 }
    ensures { found_event result ≡ one_wrong (history_in history.now) e.0 (get_or history.now.events e.0 no_light).object (contents_of history.now.values start) part.now }
{
    let mut state = start;
    for number in part {
        let no = EventNo(*number);
        let at = usize::from(*number);
        let op = history.events[at].op;
        if no == e {
            let step = state.step(EventOp { no, op });
            if !history.fits_given(&history.answers[at], &step.answer) {
                return Some(e);
            }
            state = step.state;
        } else {
            state = state.changed(EventOp { no, op });
        }
    }
    None
}

// Event e, where its answer is not what the replay of the view gives, cut down to a row of events of e's object.
pub(crate) fn replay_row(
    history: &LightHistory,
    start: State,
    view: &[u8],
    row: u64,
    e: EventNo,
) -> Option<EventNo>
    requires { ReadyKept history.now start view.now (in_row row) e.0 }
    ensures { found_event result ≡ one_wrong (history_in history.now) e.0 (get_or history.now.events e.0 no_light).object (contents_of history.now.values start) (keep (in_row row) view.now) }
{
    if history.events[usize::from(e.0)].silent {
        return None;
    }
    let cut = View { events: view }.cut_to(row);
    replay_object(history, start, cut.entries(), e)
}
