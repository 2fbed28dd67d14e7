// The state of an object in a replay: a method takes an event and hands back state and answer (`step`), or one of the two (`changed`,
// `answer`).
ghost use Rattle.std.specs.Prelude.{◌≡◌, ℕ, ◌-◌, ◌≤◌, ◌<◌, [], ◌∷◌, leb};

use history::record::{EventNo, Kind, Object, Op};

// The number of a value of the start: that of no event.
const START: u8 = 64;

// What the object holds is the values of the events numbers[head..tail], oldest first. There is a place for each of 64 events, and one
// for the number START, which stands for the value 0 that a register starts with. Pop and peek take the newest of them, or the oldest.
// The object holds at most `limit` values.
// Kept: what may not change: the definitions `Fresh` and `limit_for` have the number 64 and the limit 255 as numbers, `contents_of` reads
// values by their numbers, and `is_stack` and `Suits` have `newest` as a bool. No heap, fixed memory.
#[derive(Clone, Copy)]
pub struct State {
    pub numbers: [u8; 65],
    pub head: u8,
    pub tail: u8,
    pub newest: bool,
    pub limit: u8,
    pub ghost ordered: { head ≤ tail },
    pub ghost room: { tail ≤ 65 },
}

// An event, as its object takes it: its number and op.
#[derive(Clone, Copy)]
pub struct EventOp {
    pub no: EventNo,
    pub op: Op,
}

// The first `count` of the numbers, at most eight: the events whose values are the answer.
// Kept: no heap, fixed memory; and no slice of the state's numbers: the push to a full channel answers a number that the state does not
// hold.
#[derive(Clone, Copy)]
pub struct Given {
    pub numbers: [u8; 8],
    pub count: usize,
    pub ghost few: { count ≤ 8 },
}

// The state after an event, and the answer.
#[derive(Clone, Copy)]
pub struct Step {
    pub state: State,
    pub answer: Given,
}

impl Given {
    ghost use Rattle.objects.specs.Steps.State.{Names};

    // The answer of no value.
    fn none() -> Given
        ensures { Names [] result }
    {
        Given {
            numbers: [0; 8],
            count: 0,
        }
    }

    // The answer of one value.
    fn one(number: u8) -> Given
        ensures { Names (number ∷ []) result }
    {
        let mut numbers = [0; 8];
        numbers[0] = number;
        Given { numbers, count: 1 }
    }
}

impl State {
    ghost use Rattle.objects.specs.State.{limit_of, Fresh, Changed, Answered};
    ghost use Rattle.objects.specs.Steps.State.{Shows};

    // How many values an object holds at most.
    fn limit_of(o: Object) -> u8
        ensures { result ≡ limit_of o }
    {
        match o.kind {
            Kind::Register => 1,
            Kind::Queue | Kind::Stack => 255,
            Kind::Window | Kind::Channel => o.width,
        }
    }

    // The state at the start: a register holds a value of the start, and nothing else holds any.
    pub fn fresh(o: Object) -> State
        ensures { Fresh o result }
    {
        State {
            numbers: [START; 65],
            head: 0,
            tail: u8::from(o.kind == Kind::Register),
            newest: o.kind == Kind::Stack,
            limit: State::limit_of(o),
        }
    }

    // Whether the object holds as many values as it can.
    fn is_full(&self) -> bool
        ensures { result ≡ leb self.now.limit (self.now.tail - self.now.head) }
    {
        self.limit <= self.tail - self.head
    }

    // Puts the event behind the newest, unless the object holds as many as it can.
    // Kept: tail < 65 is asked where one more is put (four contracts); behind the last it is 65, so the type cannot say it.
    fn pushed(mut self, no: EventNo) -> State
        requires { self.tail < 65 }
        ensures { Changed self Op.Push no.0 result }
    {
        if self.is_full() {
            return self;
        }
        self.numbers[usize::from(self.tail)] = no.0;
        self.tail += 1;
        self
    }

    // Puts the event behind the newest, and keeps the last ones where the object held as many as it can.
    fn written(mut self, no: EventNo) -> State
        requires { self.tail < 65 }
        ensures { Changed self Op.Write no.0 result }
    {
        let full = self.is_full();
        self.numbers[usize::from(self.tail)] = no.0;
        self.tail += 1;
        if !full {
            return self;
        }
        self.head = self.tail - self.limit;
        self
    }

    // Drops the event at the end that pop takes, if there is one.
    fn popped(mut self) -> State
        ensures { (no : ℕ) → Changed self Op.Pop no result }
    {
        if self.head == self.tail {
            return self;
        }
        if self.newest {
            self.tail -= 1;
            return self;
        }
        self.head += 1;
        self
    }

    // The state after the event.
    // Kept: by value, here and in `step`, and not by `&mut self` (tried, and proved): the customer's document names the form, a method by
    // value that takes an event and hands back state and answer (docs/DECISIONS.md 27).
    pub fn changed(self, e: EventOp) -> State
        requires { self.tail < 65 }
        ensures { Changed self e.op e.no.0 result }
    {
        match e.op {
            Op::Write => self.written(e.no),
            Op::Push => self.pushed(e.no),
            Op::Pop => self.popped(),
            Op::Read | Op::Peek => self,
        }
    }

    // The value that pop takes and peek shows, if there is one.
    fn ended(&self) -> Given
        ensures { Shows self.now result }
    {
        if self.head == self.tail {
            return Given::none();
        }
        if self.newest {
            Given::one(self.numbers[usize::from(self.tail - 1)])
        } else {
            Given::one(self.numbers[usize::from(self.head)])
        }
    }

    // The first eight values.
    fn read(&self) -> Given
        ensures { (no : ℕ) → Answered self.now Op.Read no result }
    {
        let held = &self.numbers[usize::from(self.head)..usize::from(self.tail)];
        let count = held.len().min(8);
        let mut numbers = [0; 8];
        numbers[..count].copy_from_slice(&held[..count]);
        Given { numbers, count }
    }

    // What a push answers: its value where the object holds as many as it can, and else nothing.
    fn push_answer(&self, no: EventNo) -> Given
        ensures { Answered self.now Op.Push no.0 result }
    {
        if self.is_full() {
            Given::one(no.0)
        } else {
            Given::none()
        }
    }

    // What the event answers: at most the first eight.
    pub fn answer(&self, e: EventOp) -> Given
        ensures { Answered self.now e.op e.no.0 result }
    {
        match e.op {
            Op::Write => Given::none(),
            Op::Read => self.read(),
            Op::Push => self.push_answer(e.no),
            Op::Pop | Op::Peek => self.ended(),
        }
    }

    // Takes an event and hands back state and answer.
    pub fn step(self, e: EventOp) -> Step
        requires { self.tail < 65 }
        ensures { Changed self e.op e.no.0 result.state × Answered self e.op e.no.0 result.answer }
    {
        Step {
            state: self.changed(e),
            answer: self.answer(e),
        }
    }
}
