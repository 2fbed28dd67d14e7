// Writing a history: the text of a record in the first bytes of a lent buffer.
ghost use Rattle.std.proofs.Common.{lit<};
ghost use Rattle.std.specs.Prelude.{◌≡◌, ◌≤◌, ◌<◌, ℕ, List, [], ◌∷◌, ◌++◌, map, cond, length, get_or};
ghost use Rattle.layout.specs.Fill.{fill};
ghost use Rattle.layout.specs.Fields.{pieces_text};
ghost use Rattle.history.specs.Record.{no_object, no_event};
ghost use Rattle.history.specs.HistoryText.{object_text, event_text};
ghost use Rattle.history_writer.specs.Steps.Lines.{field_text, text_bytes};
ghost use Rattle.history_writer.specs.WriteHistory.{write_fault_number, written_of, history_written, history_after};

use crate::limits::is_within;
use crate::line::Field;
use history::record::{Event, History, Object};
use history::word::{has_width, takes_value};
use layout::fields::{fields_len, put_fields};
use layout::pieces::{CountedPieces, Pieces, pieces_len, put_headed};

const OBJECT_HEADING: &[u8] = b"object kind width\n";

const EVENT_HEADING: &[u8] = b"event process object op value answer\n";

// Why a record is not written.
#[derive(Clone, Copy, Debug, PartialEq, Eq)]
pub enum WriteFault {
    // It is outside its limits, so that no readable text stands for it.
    OutsideLimits,
    // The buffer is too short.
    TooShort,
}

impl WriteFault {
    // The documents' number: 9 or 18.
    // Kept: the name says which number it is, and `u8::from(fault)` would not.
    pub fn number(self) -> u8
        ensures { result ≡ write_fault_number self }
    {
        match self {
            WriteFault::OutsideLimits => 9,
            WriteFault::TooShort => 18,
        }
    }
}

// The number, or `-`.
// Kept: the record has 0 and no Option there (history::record).
fn number_or_dash(wanted: bool, n: u32) -> Field
    ensures { result ≡ cond wanted (Field.Number n) Field.Dash }
{
    if wanted {
        Field::Number(n)
    } else {
        Field::Dash
    }
}

// A row of a record, which has a line of N fields: an object, an event.
trait Row<const N: usize> {
    // The text of its line, and the row that stands in no place.
    ghost text: { ℕ → Self → List ℕ };

    ghost blank: { Self };

    // The fields of its line.
    fn fields(&self, own: u32) -> [Field; N]
        ensures { pieces_text (map field_text result) ≡ text own self.now ++ 10 ∷ [] };

    // It has at most 6 fields.
    ghost few: { N < 7 };
}

impl Row<3> for Object {
    ghost text = { object_text };

    ghost blank = { no_object };

    fn fields(&self, own: u32) -> [Field; 3] {
        [
            Field::Number(own),
            Field::Kind(self.kind),
            number_or_dash(has_width(self.kind), u32::from(self.width)),
        ]
    }

    ghost few = { lit< tt };
}

impl Row<6> for Event {
    ghost text = { event_text };

    ghost blank = { no_event };

    fn fields(&self, own: u32) -> [Field; 6] {
        [
            Field::Number(own),
            Field::Number(u32::from(self.process.0)),
            Field::Number(u32::from(self.object)),
            Field::Op(self.op),
            number_or_dash(takes_value(self.op), u32::from(self.value)),
            Field::Answer(self.answer),
        ]
    }

    ghost few = { lit< tt };
}

// The lines of rows, each with its line feed.
#[derive(Drop)]
struct RowLines<'a, T, const N: usize> {
    rows: &'a [T],
    ghost few: { length rows.now ≤ 64 },
}

impl<T: Row<N>, const N: usize> Pieces for RowLines<'_, T, N> {
    ghost count = { λ s. length s.rows.now };

    ghost piece = { λ s i. T.text i (get_or s.rows.now i T.blank) ++ 10 ∷ [] };

    fn count(&self) -> usize {
        self.rows.len()
    }

    fn put_piece(&self, part: &mut [u8], i: usize) -> usize {
        put_fields(part, &self.rows[i].fields(i as u32))
    }
}

impl<T: Row<N>, const N: usize> CountedPieces for RowLines<'_, T, N> {
    ghost most = { 4230 };

    fn piece_len(&self, i: usize) -> usize {
        fields_len(&self.rows[i].fields(i as u32))
    }
}

// What is written of a record: its objects and its events.
#[derive(Drop)]
struct Lines<'a> {
    objects: RowLines<'a, Object, 3>,
    events: RowLines<'a, Event, 6>,
}

// How many bytes the whole text has.
fn history_len(lines: &Lines) -> usize
    ensures { result ≡ length (text_bytes lines.now.objects.rows.now lines.now.events.rows.now) }
{
    OBJECT_HEADING.len()
        + pieces_len(&lines.objects)
        + EVENT_HEADING.len()
        + pieces_len(&lines.events)
}

// Writes the whole text into a part that has room.
fn put_history(part: &mut [u8], lines: &Lines) -> usize
    requires { length (text_bytes lines.now.objects.rows.now lines.now.events.rows.now) ≤ length part.old }
    ensures { (result ≡ length (text_bytes lines.now.objects.rows.now lines.now.events.rows.now)) × (part.new ≡ fill (text_bytes lines.now.objects.rows.now lines.now.events.rows.now) part.old) }
{
    let k = put_headed(part, OBJECT_HEADING, &lines.objects);
    k + put_headed(&mut part[k..], EVENT_HEADING, &lines.events)
}

// Writes the text of a record into the first bytes of a buffer. A record outside its limits (9) and a buffer that is too
// short (18) are refused, and the buffer stays as it was.
pub fn write_history(buf: &mut [u8], h: History) -> Result<usize, WriteFault>
    ensures { (written_of result ≡ history_written h buf.old) × (buf.new ≡ history_after h buf.old) }
{
    if !is_within(&h) {
        return Err(WriteFault::OutsideLimits);
    }
    let objects = RowLines {
        rows: h.declared_objects(),
    };
    let events = RowLines {
        rows: h.recorded_events(),
    };
    let lines = Lines { objects, events };
    let n = history_len(&lines);
    if buf.len() < n {
        return Err(WriteFault::TooShort);
    }
    put_history(buf, &lines);
    Ok(n)
}
