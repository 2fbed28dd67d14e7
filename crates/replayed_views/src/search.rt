// 16: the lowest view whose replay does not give a visible answer, and the first such event in it.
ghost use Rattle.std.specs.Prelude.{◌≡◌, ℕ, ◌<◌, length};
ghost use Rattle.std.proofs.Math.Option.{none};
ghost use Rattle.layout.specs.Options.{option_in};
ghost use Rattle.criteria.specs.Tests.{lowest};
ghost use Rattle.criteria.specs.History.{History};
ghost use Rattle.criteria.specs.Replay.{Contents};
ghost use Rattle.criteria.specs.Check.{first_wrong};
ghost use Rattle.orders.specs.Rows.{view_at};
ghost use Rattle.replays.specs.Replay.{history_in, contents_in, is_visible, found_event, Ready};
ghost use Rattle.replayed_views.specs.Steps.{ObjectRows};
ghost use Rattle.replayed_views.specs.Search.{wrong_in};

use crate::deciding::{ShownView, deciding};
use crate::object::{object_rows, replay_row};
use history::record::EventNo;
use objects::state::State;
use orders::views::{View, Views};
use replays::light::LightHistory;
use replays::replay::{Light, Visible, replay};

// A view, by its place, and an event.
#[derive(Clone, Copy)]
pub struct Place {
    pub view: usize,
    pub event: EventNo,
}

// What was replayed before view k, if nothing was wrong in the views before it: that of the latest earlier event of its process.
fn before<'a>(
    events: &[Light; 64],
    views: &Views<'a>,
    who: &[Visible; 64],
    k: usize,
) -> ShownView<'a>
    requires { k < length views.now.numbers.now }
    ensures { (h : History) (s : Contents) → ((d : ℕ) → d < k → wrong_in h s who.now views.now.rows.now views.now.lengths.now d ≡ none) → first_wrong h (is_visible h result.seen) s result.view.events.now ≡ none }
{
    let p = events[k].process;
    match events[..k].iter().rposition(|e| e.process == p) {
        Some(d) => ShownView {
            view: views.get(d),
            seen: who[d],
        },
        None => ShownView {
            view: View { events: &[] },
            seen: who[k],
        },
    }
}

// What each view is replayed with: a history taken apart, the states at the start, and of each object the row of its events.
#[derive(Clone, Copy)]
struct Replayed<'a> {
    history: &'a LightHistory,
    starts: [State; 16],
    rows: [u64; 16],
    ghost each: { ObjectRows history.now.events rows },
}

impl Replayed<'_> {
    // The first wrong answer of view k, if the one before it is right.
    fn wrong_answer(&self, known: ShownView, this: ShownView, k: usize) -> Option<EventNo>
        requires { (k < 64) × Ready self.now.history.now self.now.starts this.view.events.now }
        ensures { first_wrong (history_in self.now.history.now) (is_visible (history_in self.now.history.now) known.entry.seen) (contents_in self.now.history.now.values self.now.starts) known.entry.view.events.now ≡ none → found_event result ≡ first_wrong (history_in self.now.history.now) (is_visible (history_in self.now.history.now) this.entry.seen) (contents_in self.now.history.now.values self.now.starts) this.entry.view.events.now }
    {
        // Where one event's answer decides a view, only the events of its object are replayed.
        let Some(e) = deciding(self.history, known, this, k) else {
            return replay(self.history, self.starts, this.view.events, this.seen);
        };
        let o = usize::from(self.history.events[usize::from(e.0)].object);
        replay_row(
            self.history,
            self.starts[o],
            this.view.events,
            self.rows[o],
            e,
        )
    }
}

// The lowest view in which the replay does not give a visible answer, and the first such event.
pub fn first_wrong(
    history: &LightHistory,
    starts: [State; 16],
    views: &Views,
    who: &[Visible; 64],
) -> Option<Place>
    requires { (k : ℕ) → k < length views.now.numbers.now → Ready history.now starts (view_at views.now.rows.now views.now.lengths.now k) }
    ensures { option_in result ≡ lowest (length views.now.numbers.now) (wrong_in (history_in history.now) (contents_in history.now.values starts) who.now views.now.rows.now views.now.lengths.now) }
{
    let replayed = Replayed {
        history,
        starts,
        rows: object_rows(&history.events),
    };
    for k in 0..views.count() {
        let known = before(&history.events, views, who, k);
        let this = ShownView {
            view: views.get(k),
            seen: who[k],
        };
        if let Some(event) = replayed.wrong_answer(known, this, k) {
            return Some(Place { view: k, event });
        }
    }
    None
}
