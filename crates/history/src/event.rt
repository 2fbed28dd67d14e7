// The line of an event.
ghost use Rattle.std.specs.Prelude.{◌≡◌, ◌≢◌, ◌≤◌, ◌<◌, [], ◌∷◌, length, MatchOption};
ghost use Rattle.layout.specs.Split.{split};
ghost use Rattle.history.specs.Faults.{event_read, event_line};
ghost use Rattle.history.specs.Steps.Fields.{fields_said, six_said};

use crate::answer::answer_field;
use crate::fault::Fault;
use crate::field::{number_field, optional_field};
use crate::record::{Answer, Event, Object, Op, ProcessNo, VALUES, Value};
use crate::word::{fits_dash, has_op, may_answer, read_op, takes_value};
use layout::number::is_spelling;
use layout::split::split_once;

// The six fields of an event's line.
#[derive(Clone, Copy)]
struct Fields<'a> {
    number: &'a [u8],
    process: &'a [u8],
    object: &'a [u8],
    op: &'a [u8],
    value: &'a [u8],
    answer: &'a [u8],
}

// Cuts a line into six fields; none where it has fewer or more.
// Kept: no one function for a line of any number of fields: it was tried, and the borrow checker does not cover an array of slices that a
// loop fills yet; `split_once(..)?` for each field reads plainly.
#[tactic(auto, using(layout::proofs::SplitLaws::some_part))]
fn cut(line: &[u8]) -> Option<Fields>
    ensures { MatchOption result (length (split 32 line.now) ≢ 6) (λ f. split 32 line.now ≡ f.number.now ∷ f.process.now ∷ f.object.now ∷ f.op.now ∷ f.value.now ∷ f.answer.now ∷ []) }
{
    let (number, rest) = split_once(line, b' ')?;
    let (process, rest) = split_once(rest, b' ')?;
    let (object, rest) = split_once(rest, b' ')?;
    let (op, rest) = split_once(rest, b' ')?;
    let (value, answer) = split_once(rest, b' ')?;
    if split_once(answer, b' ').is_some() {
        return None;
    }
    Some(Fields {
        number,
        process,
        object,
        op,
        value,
        answer,
    })
}

// What six fields say that are laid out as they should be and within their limits. A value that is `-` is none, and so is an
// answer of more than eight values, which no op can give.
#[derive(Clone, Copy)]
struct Said {
    process: ProcessNo,
    object: u8,
    op: Op,
    value: Option<Value>,
    answer: Option<Answer>,
}

// Reads the fields of the event whose number is `own`, in a history with so many objects.
#[tactic(auto, unfolding(crate::specs::Steps::Fields::fields_said, crate::specs::Steps::Fields::value_said, crate::specs::Steps::Fields::answer_short, crate::specs::Faults::event_layout, crate::specs::Faults::event_limits, crate::specs::Faults::is_optional, crate::specs::Steps::Fields::number_field, crate::specs::Steps::Fields::optional_field, crate::specs::Steps::Fields::answer_field))]
fn fields_said(fields: Fields, own: u32, declared: usize) -> Result<Said, Fault>
    requires { declared ≤ 16 }
    ensures { result ≡ fields_said own declared fields.entry.number.now fields.entry.process.now fields.entry.object.now fields.entry.op.now fields.entry.value.now fields.entry.answer.now }
{
    if !is_spelling(fields.number, own) {
        return Err(Fault::Layout);
    }
    let process = number_field(fields.process, 8)?;
    let object = number_field(fields.object, declared as u64)?;
    let op = read_op(fields.op).ok_or(Fault::Layout)?;
    let value = optional_field(fields.value, VALUES)?;
    let answer = answer_field(fields.answer)?;
    if own >= 64 {
        return Err(Fault::Limits);
    }
    let process = process?;
    let object = object?;
    let value = value?;
    let answer = answer?;
    Ok(Said {
        process: ProcessNo(process as u8),
        object: object as u8,
        op,
        value: value.map(|v| v as Value),
        answer,
    })
}

// The event that they say, or what does not fit the object.
#[tactic(auto, unfolding(crate::specs::Steps::Fields::six_said, crate::specs::Steps::Fields::answered))]
fn said_event(said: Said, objects: &[Object]) -> Result<Event, Fault>
    requires { said.object < length objects.now }
    ensures { event_read result ≡ six_said objects.now said }
{
    let object = objects[usize::from(said.object)];
    if !has_op(object.kind, said.op) || !fits_dash(takes_value(said.op), said.value.is_none()) {
        return Err(Fault::Misfit);
    }
    match said.answer {
        Some(answer) if may_answer(object, said.op, answer) => Ok(Event {
            process: said.process,
            object: said.object,
            op: said.op,
            value: said.value.unwrap_or(0),
            answer,
        }),
        _ => Err(Fault::BadAnswer),
    }
}

// Reads the line of the event whose number is `own`, in a history with these objects, without its line feed: its event, or
// its first fault.
#[tactic(auto, using(crate::proofs::EventLaws::fault_six, crate::proofs::EventLaws::said_object, crate::proofs::EventLaws::said_six), unfolding(crate::specs::Faults::event_line, crate::specs::Faults::event_fields))]
pub fn read_event(line: &[u8], own: u32, objects: &[Object]) -> Result<Event, Fault>
    requires { length objects.now ≤ 16 }
    ensures { event_read result ≡ event_line own objects.now line.now }
{
    let fields = cut(line).ok_or(Fault::Layout)?;
    let said = fields_said(fields, own, objects.len())?;
    said_event(said, objects)
}
