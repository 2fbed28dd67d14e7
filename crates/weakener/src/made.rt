// A certificate text made of an accepted one: both texts are read, the certificate is checked, and the text of the lists that are wanted is
// written.
ghost use Rattle.std.specs.Prelude.{◌≡◌, true, List, ℕ};
ghost use Rattle.history.specs.Record.{events_in};
ghost use Rattle.history.specs.Readable.{within};
ghost use Rattle.certificate.specs.Readable.{fits};
ghost use Rattle.criteria.specs.Records.{history_of, certificate_of};
ghost use Rattle.checker.specs.MadeText.{made_verdict};
ghost use Rattle.weakened_records.specs.Steps.{Passed, IsRecordOf};
ghost use Rattle.certificate_reader.specs.ReadCertificate.{refusal_in};
ghost use Rattle.weakener.specs.declared.made.Unmade.TheVariants.{Refused, Faulty};
ghost use Rattle.weakener.specs.Steps.{may_be_made, lists_wanted, crosses_wanted, text_wanted, crossing_wanted, OrderWanted, IsMade, IsMadeOf};

use crate::pairs::is_pair;
use certificate::criterion::has_pasts;
use certificate::record::{Certificate, Criterion};
use certificate_reader::read::{Unread, read_certificate};
use certificate_writer::write::write_certificate;
use checker::check::{Checked, found};
use faults::check::check_records;
use history::record::History;
use history_reader::read::Refusal;
use one_line::record::{crosses, line_record};
use weakened_records::records::{ViewedRecord, weakened_record};

// A text was made: the criterion of the certificate that it was made of, and how many bytes it has.
#[derive(Clone, Copy)]
pub struct Made {
    pub criterion: Criterion,
    pub length: usize,
}

// Why none was made, in the order in which it is looked for.
#[derive(Clone, Copy)]
pub enum Unmade {
    // A text is not readable.
    Refused(Refusal),
    // The certificate, which names the criterion, is not of the sort that it is made of: 17.
    NotPair(Criterion),
    // The check found something.
    Faulty(Checked),
    // One line is wanted, and two updates are unordered: 26.
    Crossing(Criterion),
    // The buffer is too short: 18.
    TooShort(Criterion),
}

impl From<Unread> for Unmade {
    ghost from_gives = { λ u r. r ≡ Refused (refusal_in u) };

    fn from(unread: Unread) -> Unmade {
        Unmade::Refused(Refusal::from(unread))
    }
}

impl From<Checked> for Unmade {
    ghost from_gives = { λ k r. r ≡ Faulty k };

    fn from(checked: Checked) -> Unmade {
        Unmade::Faulty(checked)
    }
}

// What is wanted of a certificate: to be weakened to a criterion, or to be put in one line.
// Kept: no `Option` of a criterion, since one line is a wish too; no trait or closures, since `lists_wanted`, `crosses_wanted` and
// `OrderWanted` of specs/Steps speak of this enum.
#[derive(Clone, Copy)]
pub enum Wanted {
    Named(Criterion),
    OneLine,
}

// Whether what is wanted can be made of a certificate that names the criterion.
fn may_be_made(named: Criterion, wanted: Wanted) -> bool
    ensures { result ≡ may_be_made named wanted }
{
    match wanted {
        Wanted::Named(w) => is_pair(named, w),
        Wanted::OneLine => has_pasts(named),
    }
}

// Whether one line is wanted and two updates are unordered.
fn crosses_wanted(h: &History, c: &Certificate, wanted: Wanted) -> bool
    requires { OrderWanted wanted h.now c.now }
    ensures { (views : List (List ℕ)) → result ≡ crosses_wanted wanted (history_of h.now) (certificate_of h.now c.now views) }
{
    match wanted {
        Wanted::Named(_) => false,
        Wanted::OneLine => crosses(h, c),
    }
}

// The record of what is wanted, of a certificate that passed the check. A function of its own to the compiler too: its locals would else be
// on the stack while the texts are read.
#[inline(never)]
fn record_wanted(h: &History, of: &ViewedRecord, wanted: Wanted) -> ViewedRecord
    requires { Passed h.now of.now.certificate of.now.views × OrderWanted wanted h.now of.now.certificate }
    ensures { IsRecordOf (lists_wanted wanted (history_of h.now) (certificate_of h.now of.now.certificate of.now.views)) result.certificate result.views }
{
    match wanted {
        Wanted::Named(w) => weakened_record(h, of, w),
        Wanted::OneLine => line_record(h, &of.certificate),
    }
}

// What is wanted of a certificate that was read; h is the record of the history text.
fn make_record(
    h: &History,
    of: &ViewedRecord,
    wanted: Wanted,
    buffer: &mut [u8],
    history: &[u8],
) -> Result<Made, Unmade>
    requires { (within h.now ≡ true) × (fits (events_in h.now) of.now.certificate of.now.views ≡ true) }
    ensures { IsMadeOf history.now h.now of.now.certificate of.now.views wanted buffer.old result buffer.new }
{
    let criterion = of.certificate.criterion;
    if !may_be_made(criterion, wanted) {
        return Err(Unmade::NotPair(criterion));
    }
    check_records(h, &of.certificate, &of.views).map_err(|finding| {
        found(history, h.declared, criterion, Some(finding))
    })?;
    if crosses_wanted(h, &of.certificate, wanted) {
        return Err(Unmade::Crossing(criterion));
    }
    let made = record_wanted(h, of, wanted);
    // A record that is made of an accepted one is within its limits: it is refused only where the buffer is too short.
    let length = write_certificate(buffer, *h, made.certificate, &made.views).map_err(
        |_| Unmade::TooShort(criterion),
    )?;
    Ok(Made { criterion, length })
}

// What is wanted of a certificate text for a history text, into a lent buffer.
pub(crate) fn make(
    history: &[u8],
    text: &[u8],
    wanted: Option<Wanted>,
    buffer: &mut [u8],
) -> Result<Made, Unmade>
    ensures { IsMade (made_verdict history.now text.now (crossing_wanted wanted history.now text.now) (text_wanted wanted history.now text.now) buffer.old) (text_wanted wanted history.now text.now) buffer.old result buffer.new }
{
    let mut views = [[0u8; 64]; 64];
    let read = read_certificate(history, text, &mut views)?;
    let Some(wanted) = wanted else {
        return Err(Unmade::NotPair(read.certificate.criterion));
    };
    let of = ViewedRecord {
        certificate: read.certificate,
        views,
    };
    make_record(&read.history, &of, wanted, buffer, history)
}
