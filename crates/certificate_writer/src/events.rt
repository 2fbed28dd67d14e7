// The events of a line.
ghost use Rattle.std.specs.Prelude.{◌≤◌, length};

// The events of a past or of a view, lent.
#[derive(Clone, Copy)]
pub(crate) struct Events<'a> {
    pub(crate) events: &'a [u8],
    ghost few: { length events.now ≤ 64 },
}
