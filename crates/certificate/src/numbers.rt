// The numbers of the views. A view is numbered by a process under pram and strict and by an event under weak and causal.
ghost use Rattle.std.specs.Prelude.{◌≡◌, ℕ, ◌≤◌, ◌<◌, List, [], ◌∷◌, ◌++◌, length, take};
ghost use Rattle.certificate.specs.Criteria.{count_from, has_events, processes_from, view_numbers};
ghost use Rattle.certificate.specs.Steps.Numbers.{view_numbers_of, event_each};

use crate::record::Criterion;
use history::record::{Event, ProcessNo};

// The first `count` of the numbers.
// Kept: no heap, fixed memory; not an EventList, since the numbers are of processes under pram and strict, and `event_list_of`, of
// which the definitions speak, has events; so `all` and `push` stand here a second time.
#[derive(Clone, Copy)]
pub struct ViewNumbers {
    pub count: usize,
    pub numbers: [u8; 64],
}

impl ViewNumbers {
    // The numbers, without the places that are not used.
    pub fn all(&self) -> &[u8]
        requires { self.now.count ≤ 64 }
        ensures first { result.now ≡ take self.now.count self.now.numbers }
        ensures all { (ns : List ℕ) → self.now ≡ view_numbers_of ns → result.now ≡ ns }
    {
        &self.numbers[..self.count]
    }

    // Puts a number behind the others.
    fn push(&mut self, number: u8)
        requires { self.old.count < 64 }
        ensures { (ns : List ℕ) → self.old ≡ view_numbers_of ns → self.new ≡ view_numbers_of (ns ++ number ∷ []) }
    {
        self.numbers[self.count] = number;
        self.count += 1;
    }
}

// No numbers.
// Kept: no `Default`: a derived one says of each place of an array that it holds 0, where the loops begin with the equation here.
#[tactic(auto, unfolding(crate::specs::Steps::Numbers::view_numbers_of, history::specs::Record::pad))]
fn no_numbers() -> ViewNumbers
    ensures { result ≡ view_numbers_of [] }
{
    ViewNumbers {
        count: 0,
        numbers: [0u8; 64],
    }
}

// Whether one of the events is of the process.
fn has_events(events: &[Event], p: ProcessNo) -> bool
    ensures { result ≡ has_events p.0 events.now }
{
    events.iter().any(|e| e.process == p)
}

// The processes with events, rising.
fn process_numbers(events: &[Event]) -> ViewNumbers
    ensures { result ≡ view_numbers_of (processes_from events.now 0 8) }
{
    let mut numbers = no_numbers();
    for p in 0..8u8 {
        if has_events(events, ProcessNo(p)) {
            numbers.push(p);
        }
    }
    numbers
}

// The first n events.
fn event_numbers(n: usize) -> ViewNumbers
    requires { n ≤ 64 }
    ensures { result ≡ view_numbers_of (count_from 0 n) }
{
    let mut numbers = no_numbers();
    for i in 0..n {
        numbers.push(i as u8);
    }
    numbers
}

// The one view 0.
#[tactic(auto, unfolding(crate::specs::Steps::Numbers::view_numbers_of, history::specs::Record::pad))]
fn one_number() -> ViewNumbers
    ensures { result ≡ view_numbers_of (0 ∷ []) }
{
    ViewNumbers {
        count: 1,
        ..no_numbers()
    }
}

// Whether the views of the criterion are one an event, each of the past of its event and that event.
pub fn event_each(c: Criterion) -> bool
    ensures { result ≡ event_each c }
{
    matches!(c, Criterion::Weak | Criterion::Causal)
}

// The numbers of the views of a criterion, in a history with these events.
pub fn view_numbers(c: Criterion, events: &[Event]) -> ViewNumbers
    requires { length events.now ≤ 64 }
    ensures { (result ≡ view_numbers_of (view_numbers c events.now)) × (result.count ≤ 64) }
{
    match c {
        Criterion::Pram | Criterion::Strict => process_numbers(events),
        Criterion::Weak | Criterion::Causal => event_numbers(events.len()),
        Criterion::Converge | Criterion::Sequential => one_number(),
    }
}
