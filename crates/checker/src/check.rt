// The check of two texts: the history's reading refusals, then the certificate's, then 11 to 16 with 20 after 15, then 0.
ghost use Rattle.std.specs.Prelude.{◌≡◌, ◌≤◌, true};
ghost use Rattle.history.specs.Record.{events_in};
ghost use Rattle.history_reader.specs.Place.{text_in, text_named};
ghost use Rattle.history.specs.Readable.{within};
ghost use Rattle.certificate.specs.Readable.{fits};
ghost use Rattle.criteria.specs.Check.{check};
ghost use Rattle.criteria.specs.Records.{history_of, certificate_of};
ghost use Rattle.checker.specs.CheckText.{found_in, check_text, carried_line};
ghost use Rattle.faults.specs.Finding.{found_of};
ghost use Rattle.checker.specs.Verdict.{checked_as, verdict_of};

use crate::answer::place_in;
pub use crate::checked::Checked;
use crate::place::place_of;
use certificate::record::Criterion;
use certificate_reader::read::{Texts, read_certificate};
use faults::check::check_records;
use faults::finding::Finding;
use history_reader::place::Text;
use history_reader::read::Refusal;

// The answer of texts that were read, the history text with `declared` objects.
pub fn found(
    history: &[u8],
    declared: usize,
    criterion: Criterion,
    finding: Option<Finding>,
) -> Checked
    requires { declared ≤ 16 }
    ensures { checked_as result ≡ found_in history.now declared criterion (found_of finding) }
{
    Checked {
        criterion,
        finding,
        place: place_of(history, declared, finding),
    }
}

// What the check says of the records of two texts. A function of its own to the compiler too: its locals would else be on the stack while
// the texts are read.
#[inline(never)]
fn checked_texts(history: &[u8], read: &Texts, rows: &[[u8; 64]; 64]) -> Checked
    requires { (within read.now.history ≡ true) × (fits (events_in read.now.history) read.now.certificate rows.now ≡ true) }
    ensures { checked_as result ≡ found_in history.now read.now.history.declared read.now.certificate.criterion (check (history_of read.now.history) (certificate_of read.now.history read.now.certificate rows.now)) }
{
    let criterion = read.certificate.criterion;
    let finding = check_records(&read.history, &read.certificate, rows).err();
    found(history, read.history.declared, criterion, finding)
}

// Checks a certificate text for a history text.
pub fn check(history: &[u8], text: &[u8]) -> Result<Checked, Refusal>
    ensures { verdict_of result ≡ check_text history.now text.now }
{
    let mut rows = [[0u8; 64]; 64];
    let read = read_certificate(history, text, &mut rows)?;
    Ok(checked_texts(history, &read, &rows))
}

// The text that a place is in, of the two; an empty one where it is in neither.
fn text_named<'a>(named: Text, history: &'a [u8], text: &'a [u8]) -> &'a [u8]
    ensures { result.now ≡ text_named (text_in named) history.now text.now }
{
    match named {
        Text::History => history,
        Text::Certificate => text,
        Text::Neither => &[],
    }
}

// The line that the answer of the check carries, as part of whichever text it is in and without its line feed: the faulty line of a
// reading refusal, or the line of an event; empty where there is none.
pub fn carried_line<'a>(history: &'a [u8], text: &'a [u8]) -> &'a [u8]
    ensures { result.now ≡ carried_line history.now text.now }
{
    let Some(place) = place_in(check(history, text)) else {
        return &[];
    };
    let of = text_named(place.text, history, text);
    &of[place.start..place.end]
}
