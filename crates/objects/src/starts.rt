// The states of all objects at the start of a replay.
ghost use Rattle.std.specs.Prelude.{ℕ, ◌<◌, get_or};
ghost use Rattle.history.specs.Record.{no_object};
ghost use Rattle.objects.specs.State.{no_state, Fresh};

use crate::state::State;
use history::record::Object;

// Each object's state at the start.
pub fn starts(objects: [Object; 16]) -> [State; 16]
    ensures { (o : ℕ) → o < 16 → Fresh (get_or objects o no_object) (get_or result o no_state) }
{
    objects.map(State::fresh)
}
