// A history taken apart for its replays.
ghost use Rattle.std.specs.Prelude.{◌≡◌, ℕ, ◌≤◌, ◌<◌, length, get_or, map, Decides};
ghost use Rattle.history.specs.Record.{no_event, recorded_in};
ghost use Rattle.criteria.specs.Check.{fits};
ghost use Rattle.objects.specs.State.{value_in, given_of};
ghost use Rattle.replays.specs.Replay.{no_light, unused_answer};
ghost use Rattle.replays.specs.Light.{never_answers, is_silent, light_with, light_of, TakenApart};

use crate::replay::Light;
use history::answer::no_answer;
use history::record::{Answer, Event, History, Kind, Object, Op, ProcessNo, Value};
use history::word::{is_channel, takes_value};
use objects::state::Given;

// The light records of the events, and beside them their values and their answers. The last of the values is 0, for the start.
// Kept: no heap, fixed memory; three lists, since `event_in`, `SoundParts`, `EventsApart` and `TakenApart` name them; `values` has a
// 65th place.
// Kept: the states at the start stand beside it, since `replay-is` says of any such states what a replay finds.
#[derive(Clone, Copy)]
pub struct LightHistory {
    pub objects: [Object; 16],
    pub events: [Light; 64],
    pub values: [Value; 65],
    pub answers: [Answer; 64],
    pub size: usize,
}

impl LightHistory {
    // The value of the event with this number; 0 past the last.
    // Kept: 0 past the last, since `value_in` of objects/specs/State gives it there, and `Fresh` has the number 64 for a value of the
    // start.
    fn value(&self, number: u8) -> Value
        ensures { result ≡ value_in self.now.values number }
    {
        self.values.get(usize::from(number)).copied().unwrap_or(0)
    }

    // Whether the values are those of the events with these numbers, one by one.
    fn same_values(&self, answer: &[Value], numbers: &[u8]) -> bool
        ensures { Decides result (answer.now ≡ map (value_in self.now.values) numbers.now) }
    {
        answer.len() == numbers.len()
            && answer
                .iter()
                .zip(numbers)
                .all(|(v, number)| *v == self.value(*number))
    }

    // Whether the recorded answer is what the state gives; one that was lost fits whatever it gives.
    pub fn fits_given(&self, answer: &Answer, given: &Given) -> bool
        ensures { result ≡ fits (recorded_in answer.now) (given_of self.now.values given.now) }
    {
        answer.lost || self.same_values(answer.told_values(), &given.numbers[..given.count])
    }
}

// Whether the op of an object of the kind never answers.
fn never_answers(kind: Kind, op: Op) -> bool
    ensures { result ≡ never_answers kind op }
{
    takes_value(op) && !is_channel(kind)
}

// Whether the answer was lost, or has no value and the op never answers.
fn is_silent(kind: Kind, op: Op, answer: Answer) -> bool
    ensures { result ≡ is_silent kind op answer }
{
    answer.lost || (never_answers(kind, op) && answer.count == 0)
}

// The light record of an event whose object is of the kind.
fn light_event(kind: Kind, e: Event) -> Light
    ensures { result ≡ light_with kind e }
{
    Light {
        process: e.process,
        object: e.object,
        op: e.op,
        silent: is_silent(kind, e.op, e.answer),
    }
}

// The value of each event, and 0 in the last place for the start.
// Kept: `length events.now ≤ 64` of three contracts is a bound of one slice; a struct for it would be opened in each. No one function with
// `answers_of` and `light_events`: what they share is a `for` of three lines.
pub fn values_of(events: &[Event]) -> [Value; 65]
    requires { length events.now ≤ 64 }
    ensures { (get_or result 64 0 ≡ 0) × ((e : ℕ) → e < length events.now → get_or result e 0 ≡ (get_or events.now e no_event).value) }
{
    let mut values = [0; 65];
    for (i, e) in events.iter().enumerate() {
        values[i] = e.value;
    }
    values
}

// The answer of each event.
pub fn answers_of(events: &[Event]) -> [Answer; 64]
    requires { length events.now ≤ 64 }
    ensures { (e : ℕ) → e < length events.now → get_or result e unused_answer ≡ (get_or events.now e no_event).answer }
{
    let mut answers = [no_answer(); 64];
    for (i, e) in events.iter().enumerate() {
        answers[i] = e.answer;
    }
    answers
}

// The light record of each event, whose objects are among these.
fn light_events(objects: &[Object; 16], events: &[Event]) -> [Light; 64]
    requires { (length events.now ≤ 64) × ((e : ℕ) → e < length events.now → (get_or events.now e no_event).object < 16) }
    ensures { (e : ℕ) → e < length events.now → get_or result e no_light ≡ light_of objects.now (get_or events.now e no_event) }
{
    let blank = Light {
        process: ProcessNo(0),
        object: 0,
        op: Op::Write,
        silent: false,
    };
    let mut lights = [blank; 64];
    for (i, e) in events.iter().enumerate() {
        let kind = objects[usize::from(e.object)].kind;
        lights[i] = light_event(kind, *e);
    }
    lights
}

// The history, taken apart.
pub fn light_history(h: &History) -> LightHistory
    requires { (h.now.count ≤ 64) × ((e : ℕ) → e < h.now.count → (get_or h.now.events e no_event).object < 16) }
    ensures { TakenApart h.now result }
{
    let events = h.recorded_events();
    LightHistory {
        objects: h.objects,
        events: light_events(&h.objects, events),
        values: values_of(events),
        answers: answers_of(events),
        size: h.count,
    }
}
