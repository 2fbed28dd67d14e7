// The objects of a history text, when their lines are read.
ghost use Rattle.std.specs.Prelude.{◌≡◌, ◌≤◌, take};
ghost use Rattle.history.specs.Record.{pad, no_object};

use history::record::Object;

// The objects of a history, the first `declared` of the array, and where the lines of its events begin.
// Kept: no heap, fixed memory; the array becomes part of a History as it is.
#[derive(Clone, Copy)]
pub(crate) struct Declared {
    pub(crate) objects: [Object; 16],
    pub(crate) declared: usize,
    pub(crate) end: usize,
    pub ghost few: { declared ≤ 16 },
    pub ghost pads: { objects ≡ pad 16 no_object (take declared objects) },
}
