// The rows of an order: that of the pasts of a certificate, and program order.
ghost use Rattle.std.specs.Prelude.{◌≡◌, ℕ, ◌≤◌, ◌<◌, map, length, get_or};
ghost use Rattle.certificate.specs.Record.{no_list, entries_in};
ghost use Rattle.criteria.specs.Certificate.{listed};
ghost use Rattle.orders.specs.Rows.{ShortList, IsOrder, program_in};

use crate::sets::with_event;
use crate::views::View;
use certificate::record::EventList;

// The rows of the pasts.
pub fn past_rows(pasts: &[EventList]) -> [u64; 64]
    requires { (length pasts.now ≤ 64) × ((k : ℕ) → k < length pasts.now → ShortList (get_or pasts.now k no_list)) }
    ensures { IsOrder result (listed (map entries_in pasts.now)) }
{
    let mut rows = [0; 64];
    for (i, past) in pasts.iter().enumerate() {
        let listed = View {
            events: past.entries(),
        };
        rows[i] = listed.marks();
    }
    rows
}

// The rows of program order, of events by their processes, which are below 8.
pub fn program_rows(processes: &[u8]) -> [u64; 64]
    requires { (length processes.now ≤ 64) × ((i : ℕ) → i < length processes.now → get_or processes.now i 0 < 8) }
    ensures { IsOrder result (program_in (length processes.now) processes.now) }
{
    let mut rows = [0; 64];
    let mut earlier = [0; 8];
    for (i, process) in processes.iter().enumerate() {
        let p = usize::from(*process);
        rows[i] = earlier[p];
        earlier[p] = with_event(earlier[p], i);
    }
    rows
}
