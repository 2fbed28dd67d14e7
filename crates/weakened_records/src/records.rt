// The record of a weakened certificate, with the rows of its views beside it.
ghost use Rattle.std.specs.Prelude.{◌≡◌, ℕ, ◌≤◌, ◌<◌, true, cond, [], map, length, replicate, take};
ghost use Rattle.history.specs.Record.{pad};
ghost use Rattle.certificate.specs.declared.record.Criterion.TheVariants.{Pram, Weak, Causal, Converge, Sequential, Strict};
ghost use Rattle.certificate.specs.Record.{no_list, event_list_of};
ghost use Rattle.certificate.specs.Criteria.{has_pasts};
ghost use Rattle.certificate.specs.Steps.Numbers.{event_each};
ghost use Rattle.criteria.specs.Tests.{table, mem};
ghost use Rattle.criteria.specs.Weaken.{precedes, pasts_of, up_to_in, weakened};
ghost use Rattle.criteria.specs.Records.{history_of, certificate_of};
ghost use Rattle.weakened.specs.Steps.{view_rows_of};
ghost use Rattle.weakened_records.specs.Steps.{Passed, IsRecordOf, IsWeakened};

use certificate::criterion::has_pasts;
use certificate::list::no_list;
use certificate::numbers::{event_each, view_numbers};
use certificate::record::{Certificate, Criterion, EventList};
use faults::order::processes_of;
use history::record::History;
use orders::listed::past_rows;
use orders::views::{View, Views};
use weakened::causal::completed_views;
use weakened::converge::cut_views;
use weakened::sequential::{preceding_pasts, up_to_views, whole_views};
use weakened::strict::own_parts;
use weakened::views::ViewRows;

// The record of a certificate, and the rows of its views.
#[derive(Clone, Copy)]
pub struct ViewedRecord {
    pub certificate: Certificate,
    pub views: [[u8; 64]; 64],
}

// No pasts.
pub fn no_pasts() -> [EventList; 64]
    ensures { result ≡ replicate 64 no_list }
{
    [no_list(); 64]
}

// The record of a criterion, pasts and views.
pub fn record_of(criterion: Criterion, pasts: [EventList; 64], made: ViewRows) -> ViewedRecord
    ensures { (result.certificate ≡ record { criterion = criterion; pasts = pasts; lengths = made.lengths }) × (result.views ≡ made.rows) }
{
    let ViewRows { rows, lengths } = made;
    ViewedRecord {
        certificate: Certificate {
            criterion,
            pasts,
            lengths,
        },
        views: rows,
    }
}

// From sequential: past(e) is what precedes e, where the criterion wanted has pasts.
fn order_pasts(wanted: Criterion, order: &View) -> [EventList; 64]
    requires { (e : ℕ) → e < length order.now.events.now → mem e order.now.events.now ≡ true }
    ensures { result ≡ pad 64 no_list (map event_list_of (cond (has_pasts wanted) (pasts_of (length order.now.events.now) (precedes order.now.events.now)) [])) }
{
    if has_pasts(wanted) {
        preceding_pasts(order)
    } else {
        no_pasts()
    }
}

// From sequential: each view is the part of the order up to and with its event, or each of m views is the whole order.
fn order_views(wanted: Criterion, order: &View, m: usize) -> ViewRows
    requires { m ≤ 64 }
    ensures { result ≡ view_rows_of (cond (event_each wanted) (table (length order.now.events.now) (up_to_in order.now.events.now)) (table m (λ _. order.now.events.now))) }
{
    if event_each(wanted) {
        up_to_views(order.events)
    } else {
        whole_views(order.events, m)
    }
}

// A certificate that passed the check of its history, with the rows of its views.
#[derive(Clone, Copy)]
struct Passing<'a> {
    h: &'a History,
    of: &'a ViewedRecord,
    ghost passed: { Passed h.now of.now.certificate of.now.views },
    ghost few: { h.now.count ≤ 64 },
}

impl Passing<'_> {
    // The first views of the certificate, as many as there are numbers, with these numbers.
    fn views<'b>(&'b self, numbers: &'b [u8]) -> Views<'b>
        requires { length numbers.now ≤ 64 }
        ensures rows { result.rows.now ≡ take (length numbers.now) self.now.of.now.views }
        ensures lengths { result.lengths.now ≡ take (length numbers.now) self.now.of.now.certificate.lengths }
        ensures numbers { result.numbers.now ≡ numbers.now }
    {
        let m = numbers.len();
        Views {
            rows: &self.of.views[..m],
            lengths: &self.of.certificate.lengths[..m],
            numbers,
        }
    }

    // From sequential to any other criterion.
    #[tactic(auto, using(crate::proofs::PassedLaws::one_few, crate::proofs::PassedLaws::one_entries))]
    fn sequential_to_other(&self, wanted: Criterion) -> ViewedRecord
        requires { (self.now.of.now.certificate.criterion ≡ Sequential) × (wanted ≡ Sequential → ⊥) }
        ensures { IsWeakened wanted self.now.h.now self.now.of.now result }
    {
        let n = self.h.count;
        let line = &self.of.views[0];
        let order = View { events: &line[..n] };
        let named = view_numbers(wanted, self.h.recorded_events());
        let pasts = order_pasts(wanted, &order);
        record_of(wanted, pasts, order_views(wanted, &order, named.count))
    }

    fn from_sequential(&self, wanted: Criterion) -> ViewedRecord
        requires { self.now.of.now.certificate.criterion ≡ Sequential }
        ensures { IsWeakened wanted self.now.h.now self.now.of.now result }
    {
        match wanted {
            Criterion::Sequential => *self.of,
            _ => self.sequential_to_other(wanted),
        }
    }

    // From converge to weak: the same pasts, and the view cut to past(e) and e.
    #[tactic(auto, using(crate::proofs::PassedLaws::one_few, crate::proofs::PassedLaws::one_entries))]
    fn converge_to_weak(&self) -> ViewedRecord
        requires { self.now.of.now.certificate.criterion ≡ Converge }
        ensures { IsWeakened Weak self.now.h.now self.now.of.now result }
    {
        let n = self.h.count;
        let order = past_rows(&self.of.certificate.pasts[..n]);
        let all = &self.of.views[0];
        let view = View { events: &all[..n] };
        let made = cut_views(&view, &order[..n]);
        record_of(Criterion::Weak, self.of.certificate.pasts, made)
    }

    // From causal to pram: the view of the process's last event, then all other events rising.
    fn causal_to_pram(&self) -> ViewedRecord
        requires { self.now.of.now.certificate.criterion ≡ Causal }
        ensures { IsWeakened Pram self.now.h.now self.now.of.now result }
    {
        let n = self.h.count;
        let events = self.h.recorded_events();
        let own = view_numbers(Criterion::Causal, events);
        let named = view_numbers(Criterion::Pram, events);
        let processes = processes_of(&self.h.events);
        let views = self.views(own.all());
        let made = completed_views(&processes[..n], &views, named.all());
        record_of(Criterion::Pram, no_pasts(), made)
    }

    // From strict to weak or causal: the same pasts, and each event's view is its process's view up to and with it.
    fn strict_to_events(&self, wanted: Criterion) -> ViewedRecord
        requires { (self.now.of.now.certificate.criterion ≡ Strict) × (event_each wanted ≡ true) }
        ensures { IsWeakened wanted self.now.h.now self.now.of.now result }
    {
        let n = self.h.count;
        let named = view_numbers(Criterion::Strict, self.h.recorded_events());
        let processes = processes_of(&self.h.events);
        let pasts = self.of.certificate.pasts;
        let views = self.views(named.all());
        record_of(wanted, pasts, own_parts(&processes[..n], &views))
    }

    // From causal: to weak the same lists.
    fn from_causal(&self, wanted: Criterion) -> ViewedRecord
        requires { self.now.of.now.certificate.criterion ≡ Causal }
        ensures { IsWeakened wanted self.now.h.now self.now.of.now result }
    {
        match wanted {
            Criterion::Pram => self.causal_to_pram(),
            Criterion::Weak => ViewedRecord {
                certificate: Certificate {
                    criterion: Criterion::Weak,
                    ..self.of.certificate
                },
                ..*self.of
            },
            _ => *self.of,
        }
    }

    fn from_converge(&self, wanted: Criterion) -> ViewedRecord
        requires { self.now.of.now.certificate.criterion ≡ Converge }
        ensures { IsWeakened wanted self.now.h.now self.now.of.now result }
    {
        match wanted {
            Criterion::Weak => self.converge_to_weak(),
            _ => *self.of,
        }
    }

    // From strict: to pram the same views.
    fn from_strict(&self, wanted: Criterion) -> ViewedRecord
        requires { self.now.of.now.certificate.criterion ≡ Strict }
        ensures { IsWeakened wanted self.now.h.now self.now.of.now result }
    {
        match wanted {
            Criterion::Pram => ViewedRecord {
                certificate: Certificate {
                    criterion: Criterion::Pram,
                    pasts: no_pasts(),
                    ..self.of.certificate
                },
                ..*self.of
            },
            Criterion::Weak | Criterion::Causal => self.strict_to_events(wanted),
            _ => *self.of,
        }
    }
}

// The record that names the criterion wanted, of a certificate that passed the check; where the two are not a pair, the same record.
#[tactic(auto, using(crate::proofs::PassedLaws::few_passed))]
pub fn weakened_record(h: &History, of: &ViewedRecord, wanted: Criterion) -> ViewedRecord
    requires { Passed h.now of.now.certificate of.now.views }
    ensures { IsRecordOf (weakened wanted (history_of h.now) (certificate_of h.now of.now.certificate of.now.views)) result.certificate result.views }
{
    let passing = Passing { h, of };
    match of.certificate.criterion {
        Criterion::Causal => passing.from_causal(wanted),
        Criterion::Converge => passing.from_converge(wanted),
        Criterion::Sequential => passing.from_sequential(wanted),
        Criterion::Strict => passing.from_strict(wanted),
        _ => *of,
    }
}
