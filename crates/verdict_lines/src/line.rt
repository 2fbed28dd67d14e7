// Writing the two lines of a verdict.
ghost use Rattle.std.specs.Prelude.{◌≡◌, ◌≤◌, map, length};
ghost use Rattle.layout.specs.Fields.{pieces_text};
ghost use Rattle.layout.specs.Fill.{fill};
ghost use Rattle.layout.specs.Options.{option_in};
ghost use Rattle.history_reader.specs.Place.{text_in, place_in, line_of};
ghost use Rattle.replays.specs.Replay.{found_event};
ghost use Rattle.checker.specs.Verdict.{verdict_of};
ghost use Rattle.verdict_lines.specs.Printed.{text_word, printed};
ghost use Rattle.verdict_lines.specs.Steps.{field_text, number_field, criterion_field, text_field, fields_of};

use certificate::record::Criterion;
use certificate::word::criterion_word;
use checker::answer::{criterion_in, event_in, number_in, place_in, view_in};
use checker::check::Checked;
use checker::place::line_of;
use history::record::EventNo;
use history_reader::place::{Place, Text};
use history_reader::read::Refusal;
use layout::fields;
use layout::fields::put_fields;
use layout::fill::put_bytes;
use layout::number::put_number;

// A field of the line of values.
#[derive(Clone, Copy)]
pub enum Field {
    Dash,
    Number(u32),
    Criterion(Criterion),
    Text(Text),
}

// The word of a text.
// Kept: a match gives each text its word, as `kind_word` of history_writer does; a table could find none.
fn text_word(t: Text) -> &'static [u8]
    ensures { result.now ≡ text_word (text_in t) }
{
    match t {
        Text::History => b"history",
        Text::Certificate => b"certificate",
        Text::Neither => b"-",
    }
}

impl fields::Field for Field {
    ghost text = { field_text };

    fn put(&self, part: &mut [u8]) -> usize {
        match *self {
            Field::Dash => put_bytes(part, b"-"),
            Field::Number(n) => put_number(part, n),
            Field::Criterion(c) => put_bytes(part, criterion_word(c)),
            Field::Text(t) => put_bytes(part, text_word(t)),
        }
    }
}

// A number, or a dash for none.
// Kept: `≤ 11` in six contracts: a number is so short as it is a u32, which is known only where its field is made. A struct of a field and
// that fact would hold the enum and be opened at once.
#[tactic(auto, using(crate::proofs::PieceLaws::number_short))]
fn number_field(n: Option<u32>) -> Field
    ensures { (result ≡ number_field (option_in n)) × (length (field_text result) ≤ 11) }
{
    n.map_or(Field::Dash, Field::Number)
}

// The number of a view, or a dash for none.
fn view_field(view: Option<u8>) -> Field
    ensures { (result ≡ number_field (option_in view)) × (length (field_text result) ≤ 11) }
{
    number_field(view.map(u32::from))
}

// The number of an event, or a dash for none.
fn event_field(event: Option<EventNo>) -> Field
    ensures { (result ≡ number_field (found_event event)) × (length (field_text result) ≤ 11) }
{
    number_field(event.map(|e| u32::from(e.0)))
}

// A criterion, or a dash for none.
#[tactic(auto, using(crate::proofs::PieceLaws::criterion_short))]
fn criterion_field(c: Option<Criterion>) -> Field
    ensures { (result ≡ criterion_field (option_in c)) × (length (field_text result) ≤ 11) }
{
    c.map_or(Field::Dash, Field::Criterion)
}

// The text of a place, or a dash for none.
fn text_field(place: Option<Place>) -> Field
    ensures { (result ≡ text_field (place_in place).text) × (length (field_text result) ≤ 11) }
{
    match place.map(|place| place.text) {
        None | Some(Text::Neither) => Field::Dash,
        Some(text) => Field::Text(text),
    }
}

// The line of a place, or a dash for none.
// Kept: `line ≤ 4294967294` of three contracts is a bound of one number, for the one cast here; a type for it would be opened at once.
fn line_field(place: Option<Place>) -> Field
    requires { (place_in place).line ≤ 4294967294 }
    ensures { (result ≡ number_field (line_of (place_in place))) × (length (field_text result) ≤ 11) }
{
    number_field(line_of(place).map(|n| n as u32))
}

// The six fields of a verdict.
fn fields_of(answer: Result<Checked, Refusal>) -> [Field; 6]
    requires { (verdict_of answer).place.line ≤ 4294967294 }
    ensures { (result ≡ fields_of (verdict_of answer)) × (length (pieces_text (map field_text result)) ≤ 90) }
{
    let number = number_field(Some(number_in(answer)));
    let criterion = criterion_field(criterion_in(answer));
    let place = place_in(answer);
    let view = view_field(view_in(answer));
    let event = event_field(event_in(answer));
    [
        number,
        criterion,
        text_field(place),
        line_field(place),
        view,
        event,
    ]
}

// Writes the line of names and the line of values.
// Kept: no `Display`: the clause says what stands in the buffer and behind it, and there is no heap.
pub(crate) fn put_verdict(buf: &mut [u8], answer: Result<Checked, Refusal>) -> usize
    requires { (128 ≤ length buf.old) × ((verdict_of answer).place.line ≤ 4294967294) }
    ensures { (result ≡ length (printed (verdict_of answer))) × (buf.new ≡ fill (printed (verdict_of answer)) buf.old) × (result ≤ 128) }
{
    let fields = fields_of(answer);
    let k = put_bytes(buf, b"answer criterion text line view event\n");
    k + put_fields(&mut buf[k..], &fields)
}
