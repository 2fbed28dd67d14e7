// Places in the texts: the line that a refusal or an answer carries.
ghost use Rattle.std.specs.Prelude.{◌≡◌, ◌-◌, ◌≤◌};
ghost use Rattle.history_reader.specs.Place.{text_in, line_place, faulty_place, event_place};

use layout::split::{first_part, part_start};

// The text that a place is in.
#[derive(Clone, Copy, PartialEq, Eq)]
pub enum Text {
    History,
    Certificate,
    // Kept: `faulty_place` promised to take it; no place that is read names it.
    Neither,
}

// A line of a text: its number from 1 (0 for a text that is too long), and its bytes from `start` to `end`, without its line feed.
// Kept: the number 0, since `read_history` of specs/ReadHistory has it (`refusal 1 0 0 0`), and so has the printed line.
#[derive(Clone, Copy)]
pub struct Place {
    pub text: Text,
    pub line: usize,
    pub start: usize,
    pub end: usize,
}

// A faulty line from `start` to `end`. An empty part starts at 0.
pub fn faulty_place(text: Text, line: usize, start: usize, end: usize) -> Place
    requires { start ≤ end }
    ensures { line_place result ≡ faulty_place (text_in text) line start (end - start) }
{
    let (start, end) = if start == end { (0, 0) } else { (start, end) };
    Place {
        text,
        line,
        start,
        end,
    }
}

// The line of event e in a history text that has `declared` objects.
pub fn event_place(text: &[u8], declared: usize, e: usize) -> Place
    requires { (declared ≤ 16) × (e ≤ 4294967295) }
    ensures { line_place result ≡ event_place text.now declared e }
{
    let start = part_start(text, b'\n', declared + 2 + e);
    Place {
        text: Text::History,
        line: e + declared + 3,
        start,
        end: start + first_part(&text[start..], b'\n').len(),
    }
}
