// The check of a history and a certificate that were read.
ghost use Rattle.std.specs.Prelude.{◌≡◌, true};
ghost use Rattle.history.specs.Record.{events_in};
ghost use Rattle.history.specs.Readable.{within};
ghost use Rattle.certificate.specs.Readable.{fits};
ghost use Rattle.criteria.specs.Check.{check};
ghost use Rattle.criteria.specs.Records.{history_of, certificate_of};
ghost use Rattle.faults.specs.Finding.{finding_of};

use crate::finding::Finding;
use crate::order::{order_fault, order_rows, processes_of};
use crate::replayed::replay_fault;
use crate::viewed::view_fault;
use certificate::criterion::past_count;
use certificate::numbers::view_numbers;
use certificate::record::Certificate;
use history::record::History;
use orders::listed::program_rows;
use orders::views::Views;

// The first of the faults 11 to 16, with 20 after 15, of a certificate, with the rows of its views beside it, for a history.
pub fn check_records(h: &History, c: &Certificate, views: &[[u8; 64]; 64]) -> Result<(), Finding>
    requires { (within h.now ≡ true) × (fits (events_in h.now) c.now views.now ≡ true) }
    ensures { finding_of result ≡ check (history_of h.now) (certificate_of h.now c.now views.now) }
{
    let n = h.count;
    let named = view_numbers(c.criterion, h.recorded_events());
    let processes = processes_of(&h.events);
    let program = program_rows(&processes[..n]);
    let rows = order_rows(c.criterion, &c.pasts[..n], program);
    let views = Views {
        rows: &views[..named.count],
        lengths: &c.lengths[..named.count],
        numbers: named.all(),
    };
    order_fault(&rows, &program, past_count(c.criterion, n))?;
    view_fault(c.criterion, &views, &rows, &processes, n)?;
    replay_fault(h, c.criterion, &views, &rows)
}
