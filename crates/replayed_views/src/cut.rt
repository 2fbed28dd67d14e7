// 16 of converge: the lowest event whose answer the view, cut down to its past and it, does not give.
ghost use Rattle.std.specs.Prelude.{◌≡◌};
ghost use Rattle.criteria.specs.Tests.{lowest};
ghost use Rattle.replays.specs.Replay.{history_in, contents_in, found_event, Ready};
ghost use Rattle.replayed_views.specs.Cut.{wrong_cut};

use crate::object::{object_rows, replay_row};
use history::record::EventNo;
use objects::state::State;
use orders::sets::{both, with_event};
use replays::light::LightHistory;

// The lowest event whose answer the replay does not give, of the view cut down to the event's row and it.
pub fn first_wrong_cut(
    history: &LightHistory,
    starts: [State; 16],
    rows: &[u64; 64],
    view: &[u8],
) -> Option<EventNo>
    requires { Ready history.now starts view.now }
    ensures { found_event result ≡ lowest history.now.size (wrong_cut (history_in history.now) (contents_in history.now.values starts) rows.now view.now) }
{
    let on = object_rows(&history.events);
    for e in 0..history.size {
        let past = with_event(rows[e], e);
        let o = usize::from(history.events[e].object);
        let kept = both(past, on[o]);
        if let Some(found) = replay_row(history, starts[o], view, kept, EventNo(e as u8)) {
            return Some(found);
        }
    }
    None
}
