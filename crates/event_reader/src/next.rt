// The line of an event that a text begins with.
ghost use Rattle.std.specs.Prelude.{◌≡◌, ◌≤◌, true, cond, [], ◌∷◌, ◌++◌, length, IfSome};
ghost use Rattle.layout.specs.Split.{find};
ghost use Rattle.layout.specs.Word.{dash};
ghost use Rattle.layout.specs.Number.{spell};
ghost use Rattle.history.specs.Faults.{event_read};
ghost use Rattle.history.specs.Kinds.{op_word, takes_value};
ghost use Rattle.history.specs.Readable.{good_value};
ghost use Rattle.event_reader.specs.Steps.Next.{next_read, AnswerFirst, EventFirst};

use history::answer::{lost_answer, no_answer};
use history::event::read_event;
use history::next::{Next, next_line};
use history::record::{Answer, Event, Object, Op, ProcessNo, VALUES, Value};
use history::word::{has_op, may_answer, takes_value};
use layout::number::{leading_number, number_before_space};

// The quick way goes over a line once, a field after the other. Each of its steps tells what the text begins with and what stands
// behind it, or nothing where it does not know; the line is then read the general way, which also says which fault it has.

// An op, and what stands behind its word and a space where a text begins with them.
fn op_behind<'a>(text: &'a [u8], word: &[u8], op: Op) -> Option<(Op, &'a [u8])>
    requires { word.now ≡ op_word op ++ 32 ∷ [] }
    ensures { IfSome result (λ r. text.now ≡ op_word r.0 ++ 32 ∷ r.1.now) }
{
    let rest = text.strip_prefix(word)?;
    Some((op, rest))
}

// The op whose word a text begins with, with a space behind it, and what stands behind the space.
// Kept: `split_once` and `read_op` (two lines) were tried: they prove, and `walnutgleam_sequential` answered 17 of bench's pair sequential then
// takes 1.38 of the time before the design pass, with these words 1.19; the bar is a quarter more.
#[tactic(auto, unfolding(history::specs::Kinds::op_word))]
fn leading_op(text: &[u8]) -> Option<(Op, &[u8])>
    ensures { IfSome result (λ r. text.now ≡ op_word r.0 ++ 32 ∷ r.1.now) }
{
    op_behind(text, b"write ", Op::Write)
        .or_else(|| op_behind(text, b"read ", Op::Read))
        .or_else(|| op_behind(text, b"push ", Op::Push))
        .or_else(|| op_behind(text, b"pop ", Op::Pop))
        .or_else(|| op_behind(text, b"peek ", Op::Peek))
}

// The value that a text begins with, with a space behind it: a number where the op takes one, and else `-`; and what stands behind
// the space.
fn leading_value(text: &[u8], op: Op) -> Option<(Value, &[u8])>
    ensures { IfSome result (λ r. (good_value op r.0 ≡ true) × (text.now ≡ cond (takes_value op) (spell r.0) dash ++ 32 ∷ r.1.now)) }
{
    if takes_value(op) {
        let (number, rest) = number_before_space(text, VALUES)?;
        return Some((number as Value, rest));
    }
    let rest = text.strip_prefix(b"- ")?;
    Some((0, rest))
}

// The answer that a text begins with as `?`, with a line feed behind it, and what stands behind the line feed.
fn leading_lost(text: &[u8]) -> Option<(Answer, &[u8])>
    ensures { IfSome result (λ r. AnswerFirst text.now r.0 r.1.now) }
{
    let rest = text.strip_prefix(b"?\n")?;
    Some((lost_answer(), rest))
}

// The answer that a text begins with as values with commas between them, or as `?`, with a line feed behind it, and what stands
// behind the line feed. Few answers are lost: `?` is looked for only where no number stands.
// Kept: no one loop with `quick_entries` (certificate::next): there an entry is judged by the one before it, so the step would change what
// it captures, and the laws of the two differ in that too.
fn leading_values(text: &[u8]) -> Option<(Answer, &[u8])>
    ensures { IfSome result (λ r. AnswerFirst text.now r.0 r.1.now) }
{
    let mut values = [0 as Value; 8];
    let mut rest = text;
    for k in 0..8 {
        let Some((number, behind)) = leading_number(rest, VALUES) else {
            return leading_lost(text);
        };
        values[k] = number as Value;
        match behind {
            [b'\n', after @ ..] => {
                return Some((
                    Answer {
                        lost: false,
                        count: k as u8 + 1,
                        values,
                    },
                    after,
                ));
            }
            [b',', after @ ..] => rest = after,
            _ => return None,
        }
    }
    None
}

// The answer that a text begins with, with a line feed behind it, and what stands behind the line feed.
fn leading_answer(text: &[u8]) -> Option<(Answer, &[u8])>
    ensures { IfSome result (λ r. AnswerFirst text.now r.0 r.1.now) }
{
    if let Some(rest) = text.strip_prefix(b"-\n") {
        return Some((no_answer(), rest));
    }
    leading_values(text)
}

// Reads a line that has no fault, and tells what stands behind its line feed; of any other line it tells nothing.
fn quick_event<'a>(text: &'a [u8], own: u32, objects: &[Object]) -> Option<(Event, &'a [u8])>
    requires { length objects.now ≤ 16 }
    ensures { IfSome result (λ r. EventFirst own objects.now text.now r.0 r.1.now) }
{
    let (number, rest) = number_before_space(text, 64)?;
    if number != u64::from(own) {
        return None;
    }
    let (process, rest) = number_before_space(rest, 8)?;
    let (place, rest) = number_before_space(rest, objects.len() as u64)?;
    let object = objects[place as usize];
    let (op, rest) = leading_op(rest)?;
    if !has_op(object.kind, op) {
        return None;
    }
    let (value, rest) = leading_value(rest, op)?;
    let (answer, rest) = leading_answer(rest)?;
    if !may_answer(object, op, answer) {
        return None;
    }
    let event = Event {
        process: ProcessNo(process as u8),
        object: place as u8,
        op,
        value,
        answer,
    };
    Some((event, rest))
}

// Reads the line that a text begins with as that of the event whose number is `own`, in a history with these objects.
pub fn next_event(text: &[u8], own: u32, objects: &[Object]) -> Next<Event>
    requires { length objects.now ≤ 16 }
    ensures { (event_read result.read ≡ next_read own objects.now text.now) × (result.length ≡ find 10 text.now) × (result.length ≤ length text.now) }
{
    let quick = quick_event(text, own, objects);
    next_line(text, quick, |line| read_event(line, own, objects))
}
