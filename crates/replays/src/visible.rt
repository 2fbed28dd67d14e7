// Which answers are visible in the replay of each view.
ghost use Rattle.std.specs.Prelude.{◌≡◌, ℕ, ◌≤◌, ◌<◌, length, get_or};
ghost use Rattle.replays.specs.Visible.{visible_in, visible_at};
ghost use Rattle.replays.specs.Visible.{no_visible};

use crate::replay::{Light, Visible};
use certificate::record::Criterion;
use history::record::{EventNo, ProcessNo};

// Of the view at the place k: its number is `number`, and `process` is the process of event k.
fn visible_in(c: Criterion, number: u8, process: ProcessNo, k: u8) -> Visible
    ensures { result ≡ visible_in c number process.0 k }
{
    match c {
        Criterion::Pram | Criterion::Strict => Visible::Of(ProcessNo(number)),
        Criterion::Causal => Visible::Of(process),
        Criterion::Weak | Criterion::Converge => Visible::Only(EventNo(k)),
        Criterion::Sequential => Visible::All,
    }
}

// Of each of the views, whose numbers these are.
pub fn visible_views(c: Criterion, numbers: &[u8], events: &[Light; 64]) -> [Visible; 64]
    requires { length numbers.now ≤ 64 }
    ensures { (k : ℕ) → k < length numbers.now → get_or result k no_visible ≡ visible_at c numbers.now events.now k }
{
    // Tried: `array::from_fn`: it captures, and `rt ci` refuses the crate, since it cannot write the statements of such a crate for those
    // above.
    let mut views = [Visible::All; 64];
    for (k, number) in numbers.iter().enumerate() {
        views[k] = visible_in(c, *number, events[k].process, k as u8);
    }
    views
}
