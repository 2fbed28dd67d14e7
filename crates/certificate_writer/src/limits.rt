// The limits of a certificate record and its rows, of a history.
ghost use Rattle.std.specs.Prelude.{◌≡◌, ◌≤◌, ◌&&◌, length, eqb};
ghost use Rattle.history.specs.Record.{events_in};
ghost use Rattle.history.specs.Readable.{all_less, all_zero};
ghost use Rattle.certificate.specs.Record.{entries_in};
ghost use Rattle.certificate.specs.Faults.{rising};
ghost use Rattle.certificate.specs.Readable.{good_row, good_pasts, blank_lists, good_rows, blank_rows, fits};
ghost use Rattle.certificate_writer.specs.Steps.Lines.{parts_fit};

use certificate::criterion::past_count;
use certificate::list::no_list;
use certificate::numbers::view_numbers;
use certificate::record::{Certificate, EventList};
use history::record::History;

// Whether each event of a row is below the count.
fn all_less(row: &[u8], count: usize) -> bool
    ensures { result ≡ all_less count row.now }
{
    row.iter().all(|e| usize::from(*e) < count)
}

// Whether each place of a row holds 0.
// Kept: one call of the library's `all`; one for u8 and u16 would take layout's `Item`, and each caller's answer a `map-id`.
fn all_zero(row: &[u8]) -> bool
    ensures { result ≡ all_zero row.now }
{
    row.iter().all(|e| *e == 0)
}

// Whether the events of a row are strictly rising.
// Kept: one call of the library's method; one for u8 and u32 would take layout's `Item`, and each caller's answer a `map-id`.
fn is_rising(row: &[u8]) -> bool
    ensures { result ≡ rising row.now }
{
    row.is_sorted_by(|a, b| a < b)
}

// Whether a row holds a list of n events of a history with so many events.
// Kept: the whole row: `good_row` of certificate specs/Readable asks that zeros stand behind the n.
#[tactic(auto, unfolding(certificate::specs::Readable::good_row))]
fn good_row(row: &[u8; 64], n: usize, count: usize) -> bool
    requires { count ≤ 64 }
    ensures { (result ≡ good_row count n row.now) × (length row.now ≡ 64) }
{
    n <= count && all_less(&row[..n], count) && all_zero(&row[n..])
}

// Whether a list is good, and strictly rising.
fn good_past(l: &EventList, count: usize) -> bool
    requires { count ≤ 64 }
    ensures { result ≡ good_row count l.now.count l.now.events && rising (entries_in l.now) }
{
    good_row(&l.events, l.count, count) && is_rising(l.entries())
}

// Whether each list is good, and strictly rising.
fn good_pasts(pasts: &[EventList], count: usize) -> bool
    requires { count ≤ 64 }
    ensures { result ≡ good_pasts count pasts.now }
{
    pasts.iter().all(|l| good_past(l, count))
}

// Whether a row holds zeros.
#[tactic(auto, using(history::proofs::ZeroLaws::row_zeros))]
fn blank_row(row: &[u8; 64]) -> bool
    ensures { result ≡ eqb (length row.now) 64 && all_zero row.now }
{
    *row == [0; 64]
}

// Whether a list is empty, with zeros in its places.
#[tactic(auto, using(history::proofs::ZeroLaws::row_zeros))]
fn blank_list(l: &EventList) -> bool
    ensures { result ≡ eqb l.now.count 0 && eqb (length l.now.events) 64 && all_zero l.now.events }
{
    *l == no_list()
}

// Whether each list is empty.
fn blank_lists(pasts: &[EventList]) -> bool
    ensures { result ≡ blank_lists pasts.now }
{
    pasts.iter().all(blank_list)
}

// Whether each row is good, with its length.
fn good_rows(lengths: &[u8], rows: &[[u8; 64]], count: usize) -> bool
    requires { (count ≤ 64) × (length lengths.now ≡ length rows.now) }
    ensures { result ≡ good_rows count lengths.now rows.now }
{
    lengths
        .iter()
        .zip(rows)
        .all(|(n, row)| good_row(row, usize::from(*n), count))
}

// Whether each row holds zeros.
fn blank_rows(rows: &[[u8; 64]]) -> bool
    ensures { result ≡ blank_rows rows.now }
{
    rows.iter().all(blank_row)
}

// Whether the first k pasts and the first m rows of a record are good, and its other lists and rows blank.
// Kept: all rows: `fits` of certificate specs/Readable asks by `blank_rows` that zeros stand behind the m.
#[tactic(auto, unfolding(crate::specs::Steps::Lines::parts_fit))]
fn parts_fit(c: &Certificate, rows: &[[u8; 64]; 64], k: usize, m: usize, count: usize) -> bool
    requires { (k ≤ 64) × (m ≤ 64) × (count ≤ 64) }
    ensures { result ≡ parts_fit count k m c.now rows.now }
{
    good_pasts(&c.pasts[..k], count)
        && good_rows(&c.lengths[..m], &rows[..m], count)
        && blank_lists(&c.pasts[k..])
        && all_zero(&c.lengths[m..])
        && blank_rows(&rows[m..])
}

// Whether a record and its rows are within the limits that a history sets.
pub(crate) fn fits_history(h: &History, c: &Certificate, rows: &[[u8; 64]; 64]) -> bool
    requires { (h.now.count ≤ 64) × (length (events_in h.now) ≡ h.now.count) }
    ensures { result ≡ fits (events_in h.now) c.now rows.now }
{
    let views = view_numbers(c.criterion, h.recorded_events());
    let pasts = past_count(c.criterion, h.count);
    parts_fit(c, rows, pasts, views.count, h.count)
}
