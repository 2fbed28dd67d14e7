// The certificate record, by value. The views stand beside it, as rows of event numbers. Every place that a record or a row does
// not use holds zeros, so that two records of one certificate are equal.
ghost use Rattle.std.specs.Prelude.{◌≡◌, ◌+◌, ◌<◌, ◌≤◌, ℕ, List, [], ◌∷◌, ◌++◌};
ghost use Rattle.certificate.specs.Record.{event_list_of, entries_in};

// Those whose certificates have pasts stand together, so that a test for them is one of a range. Their numbers are `criterion_numbered`.
#[derive(Clone, Copy, PartialEq, Eq)]
pub enum Criterion {
    Pram,
    Weak,
    Causal,
    Converge,
    Strict,
    Sequential,
}

// The first `count` of the events.
// Kept: no heap, fixed memory, and the definitions, `fits` and `certificate_text` among them, speak of this record.
#[derive(Clone, Copy, PartialEq, Eq)]
pub struct EventList {
    pub count: usize,
    pub events: [u8; 64],
}

impl EventList {
    // The events, without the places that are not used.
    pub fn entries(&self) -> &[u8]
        requires { self.now.count ≤ 64 }
        ensures { result.now ≡ entries_in self.now }
    {
        &self.events[..self.count]
    }

    // Puts an event behind the others.
    pub fn push(&mut self, e: u8)
        requires { self.old.count < 64 }
        ensures list { (xs : List ℕ) → self.old ≡ event_list_of xs → self.new ≡ event_list_of (xs ++ e ∷ []) }
        ensures count { self.new.count ≡ self.old.count + 1 }
    {
        self.events[self.count] = e;
        self.count += 1;
    }
}

// The past of each event, where the criterion has pasts, and how many events each view has, in the order of the view lines.
// Kept: no heap, fixed memory; and the lengths here and the rows beside, since `fits`, `certificate_of` and `certificate_text` speak of
// them so.
#[derive(Clone, Copy)]
pub struct Certificate {
    pub criterion: Criterion,
    pub pasts: [EventList; 64],
    pub lengths: [u8; 64],
}
