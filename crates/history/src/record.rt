// The history record, by value. Every place that a record does not use holds zeros (`Register`, `Write` and `false` for a kind, an op
// and a bool), so that two records of one history are equal.
ghost use Rattle.std.specs.Prelude.{◌≡◌, ◌≤◌, length};
ghost use Rattle.history.specs.Record.{no_object, no_event, values_in, objects_in, events_in};

use crate::answer::no_answer;

// The values of objects and answers: the numbers below VALUES.
pub type Value = u16;

pub const VALUES: u64 = 65536;

#[derive(Clone, Copy, PartialEq, Eq)]
pub struct ProcessNo(pub u8);

#[derive(Clone, Copy, PartialEq, Eq)]
pub struct EventNo(pub u8);

#[derive(Clone, Copy, PartialEq, Eq)]
pub enum Kind {
    Register,
    Queue,
    Stack,
    Window,
    Channel,
}

#[derive(Clone, Copy, PartialEq, Eq)]
pub enum Op {
    Write,
    Read,
    Push,
    Pop,
    Peek,
}

// A width is 0 but for a window and a channel, whose width is its capacity.
// Kept: the number and no Option, since `within` of specs/Readable asks for that 0.
#[derive(Clone, Copy, PartialEq, Eq)]
pub struct Object {
    pub kind: Kind,
    pub width: u8,
}

// The first `count` of the values; or an answer that was lost, which has none.
// Kept: no heap, fixed memory; and `lost` beside the values, since `recorded_in` of specs/Record and the records of history_cases (a
// lost answer of one value) have both.
#[derive(Clone, Copy, PartialEq, Eq)]
pub struct Answer {
    pub lost: bool,
    pub count: u8,
    pub values: [Value; 8],
}

impl Answer {
    // The values, without the places that are not used; all eight where it says that it has more.
    pub fn told_values(&self) -> &[Value]
        ensures { result.now ≡ values_in self.now }
    {
        &self.values[..usize::from(self.count).min(8)]
    }
}

// A value is 0 where the op takes none.
// Kept: the number and no Option, since `good_value` and `blank_event` of specs/Readable ask for that 0.
#[derive(Clone, Copy, PartialEq, Eq)]
pub struct Event {
    pub process: ProcessNo,
    pub object: u8,
    pub op: Op,
    pub value: Value,
    pub answer: Answer,
}

// The first `declared` of the objects, and the first `count` of the events.
// Kept: no heap, fixed memory; and arrays that hold more than is used, since `within` of specs/Readable asks what stands there.
#[derive(Clone, Copy)]
pub struct History {
    pub objects: [Object; 16],
    pub declared: usize,
    pub events: [Event; 64],
    pub count: usize,
}

impl History {
    // The objects, without the places that are not used.
    pub fn declared_objects(&self) -> &[Object]
        requires { self.now.declared ≤ 16 }
        ensures objects { result.now ≡ objects_in self.now }
        ensures declared { length result.now ≡ self.now.declared }
    {
        &self.objects[..self.declared]
    }

    // The events, without the places that are not used.
    pub fn recorded_events(&self) -> &[Event]
        requires { self.now.count ≤ 64 }
        ensures events { result.now ≡ events_in self.now }
        ensures count { length result.now ≡ self.now.count }
    {
        &self.events[..self.count]
    }
}

// What stands in a place that holds no object.
// Kept: no `Default`, here, of `no_event` and of `no_answer`: a register without a width and a write of 0 are nothing that one would take
// for granted, and the must-fail edits `wide_no_object` and `busy_no_event` plant their mistakes in these bodies.
pub fn no_object() -> Object
    ensures { result ≡ no_object }
{
    Object {
        kind: Kind::Register,
        width: 0,
    }
}

// What stands in a place that holds no event.
pub fn no_event() -> Event
    ensures { result ≡ no_event }
{
    Event {
        process: ProcessNo(0),
        object: 0,
        op: Op::Write,
        value: 0,
        answer: no_answer(),
    }
}
