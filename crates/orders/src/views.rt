// Tests of a view, whose entries are numbers of events.
ghost use Rattle.std.specs.Prelude.{◌≡◌, ℕ, ◌≤◌, ◌<◌, length, get_or, eqb};
ghost use Rattle.certificate.specs.Record.{event_list_of};
ghost use Rattle.criteria.specs.Tests.{keep, count, mem};
ghost use Rattle.criteria.specs.Check.{not_its_set, against, outside_past};
ghost use Rattle.orders.specs.Rows.{in_row, in_rows, view_at, EventViews};

use crate::sets::{escapes, holds_some, in_row, meets, with_event, without_event};
use certificate::list::no_list;
use certificate::record::EventList;

// A view: at most 64 entries, each the number of an event below 64.
#[derive(Clone, Copy)]
pub struct View<'a> {
    pub events: &'a [u8],
    pub ghost few: { length events.now ≤ 64 },
    pub ghost inside: { (i : ℕ) → i < length events.now → get_or events.now i 0 < 64 },
}

// The views of a certificate, each with its number: row k has the entries of view k first, lengths[k] of them.
// Kept: rows and lengths apart, as a certificate's record and rows are (`certificate_of`, `fits`); one slice of both would be a copy.
#[derive(Clone, Copy)]
pub struct Views<'a> {
    pub rows: &'a [[u8; 64]],
    pub lengths: &'a [u8],
    pub numbers: &'a [u8],
    pub ghost few: { length numbers.now ≤ 64 },
    pub ghost row_each: { length rows.now ≡ length numbers.now },
    pub ghost length_each: { length lengths.now ≡ length numbers.now },
    pub ghost events: { EventViews rows.now lengths.now (length numbers.now) 64 },
}

impl<'a> Views<'a> {
    // How many views there are.
    pub fn count(&self) -> usize
        ensures { result ≡ length self.now.numbers.now }
    {
        self.numbers.len()
    }

    // View k, cut to its length.
    pub fn get(&self, k: usize) -> View<'a>
        requires { k < length self.now.numbers.now }
        ensures { result.events.now ≡ view_at self.now.rows.now self.now.lengths.now k }
    {
        let view = &self.rows[k];
        View {
            events: &view[..usize::from(self.lengths[k])],
        }
    }
}

impl View<'_> {
    // The row of the entries.
    pub fn marks(&self) -> u64
        ensures { (e : ℕ) → in_row result e ≡ mem e self.now.events.now }
    {
        let mut row = 0;
        for x in self.events {
            row = with_event(row, usize::from(*x));
        }
        row
    }

    // 14: whether the entries are not the set of a row, each once.
    pub fn not_its_set(&self, set: u64) -> bool
        ensures { result ≡ not_its_set 64 (in_row set) self.now.events.now }
    {
        let mut left = set;
        for x in self.events {
            let x = usize::from(*x);
            if !in_row(left, x) {
                return true;
            }
            left = without_event(left, x);
        }
        holds_some(left)
    }

    // 15: whether the view, with no entry twice, is against an order.
    pub fn against(&self, rows: &[u64; 64]) -> bool
        requires { (e : ℕ) → count e self.now.events.now ≤ 1 }
        ensures { result ≡ against (in_rows rows.now) self.now.events.now }
    {
        let mut later = self.marks();
        for x in self.events {
            let x = usize::from(*x);
            if meets(later, rows[x]) {
                return true;
            }
            later = without_event(later, x);
        }
        false
    }

    // 20: whether an event outside the past stands before an own event. The own events are those of process p.
    pub fn outside_past(&self, rows: &[u64; 64], processes: &[u8; 64], p: u8) -> bool
        ensures { result ≡ outside_past (in_rows rows.now) (λ e. eqb (get_or processes.now e 0) p) self.now.events.now }
    {
        let mut before = 0;
        for x in self.events {
            let x = usize::from(*x);
            if processes[x] == p && escapes(before, rows[x]) {
                return true;
            }
            before = with_event(before, x);
        }
        false
    }

    // The view, cut down to the entries of a row.
    pub fn cut_to(&self, kept: u64) -> EventList
        ensures list { result ≡ event_list_of (keep (in_row kept) self.now.events.now) }
        ensures few { result.count ≤ length self.now.events.now }
    {
        let mut cut = no_list();
        for x in self.events {
            if in_row(kept, usize::from(*x)) {
                cut.push(*x);
            }
        }
        cut
    }
}
