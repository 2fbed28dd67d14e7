// The lines of a certificate that have a number and a list, as pieces of its text.
ghost use Rattle.std.specs.Prelude.{◌≡◌, ℕ, ◌≤◌, ◌<◌, [], ◌∷◌, ◌++◌, length, get_or, take};
ghost use Rattle.certificate.specs.Record.{no_list, entries_in};
ghost use Rattle.certificate_writer.specs.Steps.Lines.{past_piece, view_piece};

use crate::events::Events;
use crate::line::list_line;
use certificate::record::{Criterion, EventList};
use layout::fields::{fields_len, put_fields};
use layout::pieces::{CountedPieces, Pieces};

// The lines of pasts, numbered from 0.
// Kept: no plainer as one type with `ViewLines`: how a line's number and events are found is all that either impl has.
#[derive(Clone, Copy)]
pub(crate) struct PastLines<'a> {
    pub(crate) pasts: &'a [EventList],
    ghost few: { length pasts.now ≤ 64 },
    ghost short: { (i : ℕ) → i < length pasts.now → (get_or pasts.now i no_list).count ≤ 64 },
}

impl<'a> PastLines<'a> {
    // The events of the past i.
    fn events(&self, i: usize) -> Events<'a>
        requires { i < length self.now.pasts.now }
        ensures { result.events.now ≡ entries_in (get_or self.now.pasts.now i no_list) }
    {
        Events {
            events: self.pasts[i].entries(),
        }
    }
}

impl Pieces for PastLines<'_> {
    ghost count = { λ p. length p.pasts.now };

    ghost piece = { λ p i. past_piece p.pasts.now i };

    fn count(&self) -> usize {
        self.pasts.len()
    }

    fn put_piece(&self, part: &mut [u8], i: usize) -> usize {
        put_fields(part, &list_line(i as u32, self.events(i)))
    }
}

impl CountedPieces for PastLines<'_> {
    ghost most = { 1410 };

    fn piece_len(&self, i: usize) -> usize {
        fields_len(&list_line(i as u32, self.events(i)))
    }
}

// The lines of views, each with its number.
// Kept: not `Views` of orders, which is above this crate and whose `events` says more (each entry below 64).
#[derive(Clone, Copy)]
pub(crate) struct ViewLines<'a> {
    pub(crate) numbers: &'a [u8],
    pub(crate) lengths: &'a [u8],
    pub(crate) rows: &'a [[u8; 64]],
    ghost few: { length numbers.now ≤ 64 },
    ghost all: { (length lengths.now ≡ length numbers.now) × (length rows.now ≡ length numbers.now) },
    ghost short: { (i : ℕ) → i < length lengths.now → get_or lengths.now i 0 ≤ 64 },
}

impl<'a> ViewLines<'a> {
    // The events of the view i.
    fn events(&self, i: usize) -> Events<'a>
        requires { i < length self.now.numbers.now }
        ensures { result.events.now ≡ take (get_or self.now.lengths.now i 0) (get_or self.now.rows.now i []) }
    {
        let row = &self.rows[i];
        Events {
            events: &row[..usize::from(self.lengths[i])],
        }
    }
}

impl Pieces for ViewLines<'_> {
    ghost count = { λ v. length v.numbers.now };

    ghost piece = { λ v i. view_piece v.numbers.now v.lengths.now v.rows.now i };

    fn count(&self) -> usize {
        self.numbers.len()
    }

    fn put_piece(&self, part: &mut [u8], i: usize) -> usize {
        put_fields(part, &list_line(u32::from(self.numbers[i]), self.events(i)))
    }
}

impl CountedPieces for ViewLines<'_> {
    ghost most = { 1410 };

    fn piece_len(&self, i: usize) -> usize {
        fields_len(&list_line(u32::from(self.numbers[i]), self.events(i)))
    }
}

// What is written of a certificate: its criterion, its pasts where the criterion has pasts, and its views.
#[derive(Clone, Copy)]
pub(crate) struct Lines<'p, 'v> {
    pub(crate) criterion: Criterion,
    pub(crate) pasts: PastLines<'p>,
    pub(crate) views: ViewLines<'v>,
}
