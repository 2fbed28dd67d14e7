// Reading a certificate text, given its history text.
ghost use Rattle.std.specs.Prelude.{◌≡◌, ℕ, ◌+◌, ◌≤◌, map, length, get_or};
ghost use Rattle.layout.specs.Split.{split};
ghost use Rattle.history_reader.specs.Place.{CertificateText, line_place, faulty_place};
ghost use Rattle.certificate.specs.Record.{no_list};
ghost use Rattle.certificate.specs.Steps.Lists.{is_past};
ghost use Rattle.certificate.specs.declared.record.EventList.{EventList};
ghost use Rattle.certificate_reader.specs.ReadCertificate.{refusal, heading_from, lines_from, read_lines, texts_read, refusal_in, read_certificate, rows_read};
ghost use Rattle.certificate_reader.specs.Steps.Lines.{refused, CriterionRead, LineRead, ListsRead, EndRead, PastsRead, ViewsRead, AllRead};

use crate::left::LinesLeft;
use certificate::criterion::{has_pasts, read_criterion};
use certificate::list::{Part, Sort, no_list};
use certificate::next::next_list;
use certificate::numbers::view_numbers;
use certificate::record::{Certificate, Criterion, EventList};
use history::fault::Fault;
use history::record::{Event, History};
use history_reader::place::{Place, Text, faulty_place};
use history_reader::read::{Refusal, read_history};
use layout::split::{first_part, split_once};
use layout::word::is_word;

// The longest certificate text that is read.
const LONGEST: usize = 32768;

// The records of two texts.
#[derive(Clone, Copy)]
pub struct Texts {
    pub history: History,
    pub certificate: Certificate,
}

// Why the two are not read: the history text is refused, or the certificate text is, of a history that was read.
#[derive(Clone, Copy)]
pub enum Unread {
    NoHistory(Refusal),
    NoCertificate(History, Refusal),
}

impl From<Unread> for Refusal {
    ghost from_gives = { λ u r. r ≡ refusal_in u };

    fn from(unread: Unread) -> Refusal {
        match unread {
            Unread::NoHistory(refusal) | Unread::NoCertificate(_, refusal) => refusal,
        }
    }
}

impl<'a> LinesLeft<'a> {
    // The place of the next line, which has so many bytes.
    fn place(&self, size: usize) -> Place
        requires { size ≤ length self.now.text.now }
        ensures { line_place result ≡ faulty_place CertificateText self.now.line self.now.start size }
    {
        faulty_place(Text::Certificate, self.line, self.start, self.start + size)
    }

    // Refuses the layout of the next line, which has so many bytes.
    fn refuse(&self, size: usize) -> Refusal
        requires { size ≤ length self.now.text.now }
        ensures { refused result ≡ refusal 2 self.now.line self.now.start size }
    {
        Refusal {
            fault: Fault::Layout,
            place: self.place(size),
        }
    }

    // Reads the first line, which names the criterion.
    // Kept: no one function with `heading`: its clause would speak of the answer of a step that it is lent, and `CriterionRead` here and
    // `LineRead` there would each need a law from that; what the two share is to cut a line and to go past it.
    fn criterion(&mut self) -> Result<Criterion, Refusal>
        requires { (self.old.line ≡ 1) × (self.old.start ≡ 0) }
        ensures { CriterionRead self.old self.new result }
    {
        let Some((line, _)) = split_once(self.text, b'\n') else {
            return Err(self.refuse(self.text.len()));
        };
        let Some(criterion) = read_criterion(line) else {
            return Err(self.refuse(line.len()));
        };
        self.pass(line.len());
        Ok(criterion)
    }

    // Reads a line that is a heading.
    // Kept: no one function with `criterion`, which says why.
    fn heading(&mut self, heading: &[u8]) -> Result<(), Refusal>
        ensures { LineRead (heading_from heading.now) self.old self.new result }
    {
        let Some((line, _)) = split_once(self.text, b'\n') else {
            return Err(self.refuse(self.text.len()));
        };
        if !is_word(line, heading) {
            return Err(self.refuse(line.len()));
        }
        self.pass(line.len());
        Ok(())
    }

    // Reads a line of a part for each of the numbers.
    fn lists(&mut self, numbers: &[u8], part: Part) -> Result<[EventList; 64], Refusal>
        requires { length numbers.now ≤ 64 }
        ensures { ListsRead (is_past part.sort) part.count numbers.now self.old self.new result }
    {
        let mut lists = [no_list(); 64];
        for (i, own) in numbers.iter().enumerate() {
            let next = next_list(self.text, u32::from(*own), part);
            let place = self.place(next.length);
            lists[i] = next.read.map_err(|fault| Refusal { fault, place })?;
            self.pass(next.length);
        }
        Ok(lists)
    }

    // Reads the heading of the pasts and their lines, one for each event, where the criterion has pasts.
    fn pasts(&mut self, criterion: Criterion, events: &[Event]) -> Result<[EventList; 64], Refusal>
        requires { length events.now ≤ 64 }
        ensures { PastsRead criterion events.now self.old self.new result }
    {
        if !has_pasts(criterion) {
            return Ok([no_list(); 64]);
        }
        // A past has the number of its event, as a view of weak has.
        let numbers = view_numbers(Criterion::Weak, events);
        let part = Part {
            sort: Sort::Past,
            count: events.len(),
        };
        self.heading(b"event past")?;
        self.lists(numbers.all(), part)
    }

    // Reads the heading of the views and their lines, which are the last.
    fn views(&mut self, criterion: Criterion, events: &[Event]) -> Result<[EventList; 64], Refusal>
        requires { length events.now ≤ 64 }
        ensures { ViewsRead criterion events.now self.old result }
    {
        let numbers = view_numbers(criterion, events);
        let part = Part {
            sort: Sort::View,
            count: events.len(),
        };
        self.heading(b"view order")?;
        let views = self.lists(numbers.all(), part)?;
        self.end()?;
        Ok(views)
    }

    // Reads the end of a text, where no line is left.
    fn end(&self) -> Result<(), Refusal>
        ensures { EndRead self.now result }
    {
        if self.text.is_empty() {
            return Ok(());
        }
        Err(self.refuse(first_part(self.text, b'\n').len()))
    }
}

// Hands the rows of the views over, and gives back their lengths.
// Kept: two `map`s of the array were tried: they prove, and take 17,952 bytes more of the stack, of which include/walnutgleam.h promises a
// bound.
fn put_rows(views: &[EventList; 64], rows: &mut [[u8; 64]; 64]) -> [u8; 64]
    requires { (k : ℕ) → (get_or views.now k no_list).count ≤ 64 }
    ensures { (result ≡ map (λ (l : EventList). l.count) views.now) × (rows.new ≡ map (λ (l : EventList). l.events) views.now) }
{
    let mut lengths = [0u8; 64];
    for (i, view) in views.iter().enumerate() {
        rows[i] = view.events;
        lengths[i] = view.count as u8;
    }
    lengths
}

// Reads all lines.
fn read_lines(
    text: &[u8],
    events: &[Event],
    rows: &mut [[u8; 64]; 64],
) -> Result<Certificate, Refusal>
    requires { (length events.now ≤ 64) × (length text.now ≤ 32768) }
    ensures { AllRead (lines_from events.now (split 10 text.now)) rows.old rows.new result }
{
    let mut lines = LinesLeft {
        text,
        line: 1,
        start: 0,
    };
    let criterion = lines.criterion()?;
    let pasts = lines.pasts(criterion, events)?;
    let views = lines.views(criterion, events)?;
    let lengths = put_rows(&views, rows);
    Ok(Certificate {
        criterion,
        pasts,
        lengths,
    })
}

// Reads a certificate text of any length and content, of a history with these events.
fn read_text(
    text: &[u8],
    events: &[Event],
    rows: &mut [[u8; 64]; 64],
) -> Result<Certificate, Refusal>
    requires { length events.now ≤ 64 }
    ensures { AllRead (read_lines events.now text.now) rows.old rows.new result }
{
    if text.len() > LONGEST {
        return Err(Refusal {
            fault: Fault::TooLong,
            place: faulty_place(Text::Certificate, 0, 0, 0),
        });
    }
    read_lines(text, events, rows)
}

// Reads a history text and a certificate text, each of any length and content. The history's refusals come first. Where both are
// read the rows are those of the views; on a refusal they stay as they were.
pub fn read_certificate(
    history: &[u8],
    text: &[u8],
    rows: &mut [[u8; 64]; 64],
) -> Result<Texts, Unread>
    ensures { (texts_read result ≡ read_certificate history.now text.now) × (rows.new ≡ rows_read history.now text.now rows.old) }
{
    let history = read_history(history).map_err(Unread::NoHistory)?;
    let certificate = read_text(text, history.recorded_events(), rows).map_err(
        |refusal| Unread::NoCertificate(history, refusal),
    )?;
    Ok(Texts {
        history,
        certificate,
    })
}
