// A causal order and its updates, by rows.
ghost use Rattle.std.specs.Prelude.{◌≡◌, ◌&&◌, ℕ, ◌≤◌, ltb, map, take};
ghost use Rattle.history.specs.Record.{events_in};
ghost use Rattle.certificate.specs.Record.{pasts_in};
ghost use Rattle.criteria.specs.Certificate.{listed};
ghost use Rattle.orders.specs.Rows.{in_row, IsOrder};
ghost use Rattle.one_line.specs.Steps.{OrderRead, update_in};

use crate::updates::updates_of;
use certificate::record::Certificate;
use history::record::History;
use orders::listed::past_rows;

// The past of each event, the updates, and how many events there are.
// Kept: no heap, fixed memory; the rows are the 64 that `past_rows` gives, of which the first `size` are of events.
#[derive(Clone, Copy)]
pub(crate) struct Order {
    pub(crate) pasts: [u64; 64],
    pub(crate) updates: u64,
    pub(crate) size: usize,
    ghost few: { size ≤ 64 },
}

// The causal order of a certificate with pasts.
pub(crate) fn order_of(h: &History, c: &Certificate) -> Order
    requires { OrderRead h.now c.now }
    ensures pasts { IsOrder result.pasts (listed (pasts_in h.now.count c.now)) }
    ensures updates { (e : ℕ) → in_row result.updates e ≡ (ltb e h.now.count && update_in (events_in h.now) e) }
    ensures size { result.size ≡ h.now.count }
{
    Order {
        pasts: past_rows(&c.pasts[..h.count]),
        updates: updates_of(h.recorded_events()),
        size: h.count,
    }
}
