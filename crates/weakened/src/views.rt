// Views as rows.
ghost use Rattle.std.specs.Prelude.{◌≡◌, ℕ, ◌≤◌, ◌<◌, List};
ghost use Rattle.certificate.specs.declared.record.EventList.{EventList};
ghost use Rattle.certificate.specs.Record.{event_list_of};
ghost use Rattle.criteria.specs.Tests.{table};
ghost use Rattle.weakened.specs.Steps.{view_rows_of};

use certificate::record::EventList;

// The rows of views, and how many events each view has.
// Kept: no heap, fixed memory; rows and lengths apart, as `rows_of` and the `lengths` of a `Certificate` have them.
#[derive(Clone, Copy)]
pub struct ViewRows {
    pub rows: [[u8; 64]; 64],
    pub lengths: [u8; 64],
}

// m views, each made of its place.
pub(crate) fn view_rows<F: Fn(usize) -> EventList>(m: usize, make: F) -> ViewRows
    requires few { m ≤ 64 }
    requires can { (k : ℕ) → k < m → F.pre make k }
    requires short { (k : ℕ) (list : EventList) → k < m → F.post make k list → list.count ≤ 64 }
    ensures { (view : ℕ → List ℕ) → ((k : ℕ) (list : EventList) → k < m → F.post make k list → list ≡ event_list_of (view k)) → result ≡ view_rows_of (table m view) }
{
    let mut rows = [[0u8; 64]; 64];
    let mut lengths = [0u8; 64];
    for k in 0..m {
        let EventList { count, events } = make(k);
        rows[k] = events;
        lengths[k] = count as u8;
    }
    ViewRows { rows, lengths }
}
