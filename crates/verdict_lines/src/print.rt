// The two lines of the check of two texts.
ghost use Rattle.std.specs.Prelude.{◌≡◌, ◌≤◌, take};
ghost use Rattle.checker.specs.CheckText.{check_text};
ghost use Rattle.verdict_lines.specs.Printed.{printed_in};

use crate::line::put_verdict;
use checker::check::check;

// The first `length` of the bytes; those behind them are 0.
// Kept: no heap, fixed memory, so the lines are an array and their length.
#[derive(Clone, Copy)]
pub struct Printed {
    pub length: usize,
    pub bytes: [u8; 128],
}

impl Printed {
    // The two lines.
    pub fn text(&self) -> &[u8]
        requires { self.now.length ≤ 128 }
        ensures { result.now ≡ take self.now.length self.now.bytes }
    {
        &self.bytes[..self.length]
    }
}

// Checks a certificate text for a history text, and gives the two lines of the verdict.
pub fn print_check(history: &[u8], text: &[u8]) -> Printed
    ensures { result ≡ printed_in (check_text history.now text.now) }
{
    let mut bytes = [0u8; 128];
    let length = put_verdict(&mut bytes, check(history, text));
    Printed { length, bytes }
}
