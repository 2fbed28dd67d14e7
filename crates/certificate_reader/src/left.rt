// The lines that are left of a text.
ghost use Rattle.std.specs.Prelude.{◌≡◌, ◌+◌, ◌≤◌, ◌<◌, length, drop};

// The bytes from the next line on, the number of that line, from 1, and where it begins in the text.
#[derive(Clone, Copy)]
pub(crate) struct LinesLeft<'a> {
    pub text: &'a [u8],
    pub line: usize,
    pub start: usize,
    pub ghost few: { line ≤ start + 1 },
    pub ghost short: { start + length text.now ≤ 32768 },
}

impl<'a> LinesLeft<'a> {
    // Goes past the next line, which has so many bytes and a line feed.
    pub(crate) fn pass(&mut self, size: usize)
        requires { size < length self.old.text.now }
        ensures { (self.new.text.now ≡ drop (size + 1) self.old.text.now) × (self.new.line ≡ self.old.line + 1) × (self.new.start ≡ self.old.start + size + 1) }
    {
        *self = LinesLeft {
            text: &self.text[size + 1..],
            line: self.line + 1,
            start: self.start + size + 1,
        };
    }
}
