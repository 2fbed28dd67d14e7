// Of a certificate with pasts: whether its order leaves two updates unordered, and the record of the line.
ghost use Rattle.std.specs.Prelude.{◌≡◌, List, ℕ};
ghost use Rattle.criteria.specs.Certificate.{order};
ghost use Rattle.criteria.specs.OneLine as lists;
ghost use Rattle.criteria.specs.Records.{history_of, certificate_of};
ghost use Rattle.weakened_records.specs.Steps.{IsRecordOf};
ghost use Rattle.one_line.specs.Steps.{OrderRead};

use crate::line::{by_place, places_of};
use crate::order::order_of;
use crate::updates::crossing;
use certificate::record::{Certificate, Criterion};
use history::record::History;
use weakened::sequential::whole_views;
use weakened_records::records::{ViewedRecord, no_pasts, record_of};

// 26: whether the causal order leaves two updates unordered.
pub fn crosses(h: &History, c: &Certificate) -> bool
    requires { OrderRead h.now c.now }
    ensures { (views : List (List ℕ)) → result ≡ lists.crosses (history_of h.now) (order (history_of h.now) (certificate_of h.now c.now views)) }
{
    crossing(&order_of(h, c))
}

// The sequential certificate of the line.
pub fn line_record(h: &History, c: &Certificate) -> ViewedRecord
    requires { OrderRead h.now c.now }
    ensures { (views : List (List ℕ)) → IsRecordOf (lists.in_one_line (history_of h.now) (certificate_of h.now c.now views)) result.certificate result.views }
{
    let places = places_of(&order_of(h, c));
    let line = by_place(&places[..h.count]);
    let views = whole_views(line.entries(), 1);
    record_of(Criterion::Sequential, no_pasts(), views)
}
