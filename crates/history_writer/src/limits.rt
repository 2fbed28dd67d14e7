// The limits of a record: whether each used part is in order and each place that is not used is blank.
ghost use Rattle.std.specs.Prelude.{◌≡◌};
ghost use Rattle.history.specs.Readable.{good_object, good_objects, all_zero, good_answer, good_value, good_event, good_events, blank_object, blank_objects, blank_event, blank_events, within};

use history::record::{Answer, Event, History, Object, Op, Value, no_event, no_object};
use history::word::{has_op, has_width, may_answer, takes_value, width_bound};

// Whether an object has a width where its kind has one.
#[tactic(auto, unfolding(history::specs::Readable::good_object))]
fn good_object(o: Object) -> bool
    ensures { result ≡ good_object o }
{
    if has_width(o.kind) {
        0 < o.width && u64::from(o.width) < width_bound(o.kind)
    } else {
        o.width == 0
    }
}

// Whether a place for an object is blank.
#[tactic(auto, unfolding(history::specs::Readable::blank_object))]
fn blank_object(o: Object) -> bool
    ensures { result ≡ blank_object o }
{
    o == no_object()
}

// Whether each object is good.
fn good_objects(objects: &[Object]) -> bool
    ensures { result ≡ good_objects objects.now }
{
    objects.iter().all(|o| good_object(*o))
}

// Whether each place for an object is blank.
fn blank_objects(objects: &[Object]) -> bool
    ensures { result ≡ blank_objects objects.now }
{
    objects.iter().all(|o| blank_object(*o))
}

// Whether each value is 0.
// Kept: one call of the library's `all`; one for u8 and u16 would take layout's `Item`, and each caller's answer a `map-id`.
fn all_zero(values: &[Value]) -> bool
    ensures { result ≡ all_zero values.now }
{
    values.iter().all(|v| *v == 0)
}

// Whether an op of an object can give the answer, and the answer is within its limits.
#[tactic(auto, unfolding(history::specs::Readable::good_answer))]
fn good_answer(object: Object, op: Op, a: Answer) -> bool
    ensures { result ≡ good_answer object op a }
{
    let count = usize::from(a.count);
    if count > 8 {
        return false;
    }
    may_answer(object, op, a) && all_zero(&a.values[count..])
}

// Whether an op has the value: any where it takes one, and 0 elsewhere.
#[tactic(auto, unfolding(history::specs::Readable::good_value))]
fn good_value(op: Op, v: Value) -> bool
    ensures { result ≡ good_value op v }
{
    takes_value(op) || v == 0
}

// Whether an event is within its limits, in a history with these objects.
#[tactic(auto, unfolding(history::specs::Readable::good_event))]
fn good_event(objects: &[Object], e: Event) -> bool
    ensures { result ≡ good_event objects.now e }
{
    let Some(object) = objects.get(usize::from(e.object)) else {
        return false;
    };
    e.process.0 < 8
        && has_op(object.kind, e.op)
        && good_value(e.op, e.value)
        && good_answer(*object, e.op, e.answer)
}

// Whether a place for an event is blank.
#[tactic(auto, using(history::proofs::ZeroLaws::eight_zeros), unfolding(history::specs::Readable::blank_event))]
fn blank_event(e: Event) -> bool
    ensures { result ≡ blank_event e }
{
    e == no_event()
}

// Whether each event is good.
fn good_events(objects: &[Object], events: &[Event]) -> bool
    ensures { result ≡ good_events objects.now events.now }
{
    events.iter().all(|e| good_event(objects, *e))
}

// Whether each place for an event is blank.
fn blank_events(events: &[Event]) -> bool
    ensures { result ≡ blank_events events.now }
{
    events.iter().all(|e| blank_event(*e))
}

// Whether a record is within its limits, so that it has a text.
#[tactic(auto, unfolding(history::specs::Readable::within))]
pub fn is_within(h: &History) -> bool
    ensures { result ≡ within h.now }
{
    if h.declared > 16 || h.count > 64 {
        return false;
    }
    let objects = h.declared_objects();
    good_objects(objects)
        && good_events(objects, h.recorded_events())
        && blank_objects(&h.objects[h.declared..])
        && blank_events(&h.events[h.count..])
}
