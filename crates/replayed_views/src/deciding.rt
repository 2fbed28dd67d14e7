// The one event whose answer decides a view, where there is one.
ghost use Rattle.std.specs.Prelude.{◌≡◌, true, ℕ, ◌≤◌, ◌<◌, get_or, length, MatchOption};
ghost use Rattle.criteria.specs.Tests.{mem};
ghost use Rattle.replays.specs.Replay.{no_light};
ghost use Rattle.replayed_views.specs.Steps.{shows_of, GoesOn, Decides};

use history::record::{EventNo, ProcessNo};
use orders::views::View;
use replays::light::LightHistory;
use replays::replay::{Light, Visible};

// Whether e is the only event of process p among these events.
fn alone(events: &[Light; 64], rest: &[u8], p: ProcessNo, e: EventNo) -> bool
    requires { (i : ℕ) → i < length rest.now → get_or rest.now i 0 < 64 }
    ensures { result ≡ true → (f : ℕ) → mem f rest.now ≡ true → (get_or events.now f no_light).process.0 ≡ p.0 → f ≡ e.0 }
{
    rest.iter()
        .all(|no| events[usize::from(*no)].process != p || *no == e.0)
}

// Whether b goes on from a by events of which none but e is of process p, which is e's.
fn goes_on(events: &[Light; 64], a: &[u8], b: &[u8], p: ProcessNo, e: EventNo) -> bool
    requires { (e.0 < 64) × ((i : ℕ) → i < length b.now → get_or b.now i 0 < 64) }
    ensures { result ≡ true → GoesOn events.now a.now b.now p.0 e.0 }
{
    let Some(rest) = b.strip_prefix(a) else {
        return false;
    };
    events[usize::from(e.0)].process == p && alone(events, rest, p, e)
}

// Whether the answers of process p are the visible ones.
fn shows(who: Visible, p: ProcessNo) -> bool
    ensures { result ≡ shows_of who p.0 }
{
    matches!(who, Visible::Of(q) if q == p)
}

// A view, and whose answers are visible in it.
#[derive(Clone, Copy)]
pub(crate) struct ShownView<'a> {
    pub view: View<'a>,
    pub seen: Visible,
}

// The event that alone decides this view, the one at the place k, if the view before it is right.
pub(crate) fn deciding(
    history: &LightHistory,
    before: ShownView,
    this: ShownView,
    k: usize,
) -> Option<EventNo>
    requires { (history.now.size ≤ 64) × (k < 64) × ((i : ℕ) → i < length this.view.events.now → get_or this.view.events.now i 0 < history.now.size) }
    ensures { MatchOption result Unit (λ e. (e.0 < history.now.size) × Decides history.now before.entry.seen before.entry.view.events.now this.entry.seen this.entry.view.events.now e.0) }
{
    let own = EventNo(k as u8);
    match this.seen {
        Visible::Of(p)
            if k < history.size
                && shows(before.seen, p)
                && goes_on(
                    &history.events,
                    before.view.events,
                    this.view.events,
                    p,
                    own,
                ) => { Some(own) }
        Visible::Only(e) => (usize::from(e.0) < history.size).then_some(e),
        _ => None,
    }
}
