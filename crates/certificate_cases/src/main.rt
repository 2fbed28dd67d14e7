// Reads certificates of two histories, good and damaged, and writes a line for each: whether it was read and is written back as
// the same bytes; or the refusal with its text and line. Then writes records, some of which no readable text stands for, each into a
// buffer that is shown.

#![tactic(auto)]

use certificate::list::no_list;
use certificate::record::Certificate;
use certificate_reader::read::{Texts, read_certificate};
use certificate_writer::write::write_certificate;
use checker::check::carried_line;
use history::record::{History, ProcessNo};
use history_reader::place::Text;
use history_reader::read::Refusal;
use std::io;
use std::io::Write;

// Q: a queue, process 0 pushes 7 and process 1 pops it.
const QUEUE: &[u8] =
    b"object kind width\n0 queue -\nevent process object op value answer\n0 0 0 push 7 -\n1 1 0 pop - 7\n";

// The empty history.
const NOTHING: &[u8] = b"object kind width\nevent process object op value answer\n";

fn text_name(text: Text) -> &'static str {
    match text {
        Text::History => "history",
        Text::Certificate => "certificate",
        Text::Neither => "-",
    }
}

// Writes the records of two texts back into a buffer with room for 256 bytes, and compares with the certificate's text.
fn say_back<W: Write>(
    out: &mut W,
    texts: &Texts,
    rows: &[[u8; 64]; 64],
    text: &[u8],
) -> io::Result<()> {
    let mut buffer = [b'.'; 256];
    match write_certificate(&mut buffer, texts.history, texts.certificate, rows) {
        Ok(n) => {
            let same = buffer.get(..n) == Some(text);
            let bytes = if same { "the same" } else { "other" };
            writeln!(out, "read, written back 0 as {bytes} bytes")
        }
        Err(fault) => writeln!(out, "read, written back {}", fault.number()),
    }
}

fn case<W: Write>(out: &mut W, name: &str, history: &[u8], text: &[u8]) -> io::Result<()> {
    write!(out, "{name}: ")?;
    let mut rows = [[0u8; 64]; 64];
    match read_certificate(history, text, &mut rows) {
        Ok(texts) => say_back(out, &texts, &rows, text),
        Err(unread) => {
            let refusal = Refusal::from(unread);
            let fault = refusal.fault.number();
            let which = text_name(refusal.place.text);
            let line = refusal.place.line;
            write!(out, "refused {fault}, text {which}, line {line}: [")?;
            out.write_all(carried_line(history, text))?;
            writeln!(out, "]")
        }
    }
}

// A line for each named certificate of a history.
fn cases<W: Write>(out: &mut W, history: &[u8], named: &[(&str, &[u8])]) -> io::Result<()> {
    for (name, text) in named {
        case(out, name, history, text)?;
    }
    Ok(())
}

// A certificate of a history that is refused.
fn faulty_history<W: Write>(out: &mut W) -> io::Result<()> {
    case(
        out,
        "faulty history",
        b"object kind width\n0 queue 3\n",
        b"criterion atomic\n",
    )
}

// Texts of line feeds alone: as many as a certificate may have bytes, and one more.
fn long_texts<W: Write>(out: &mut W) -> io::Result<()> {
    let longest = [b'\n'; 32768];
    case(out, "32768 bytes", QUEUE, &longest)?;
    let longer = [b'\n'; 32769];
    case(out, "32769 bytes", QUEUE, &longer)
}

// Writes a record and its rows into a buffer of 64, and shows the whole buffer.
fn say_record<W: Write>(
    out: &mut W,
    name: &str,
    h: History,
    c: Certificate,
    rows: &[[u8; 64]; 64],
) -> io::Result<()> {
    let mut buffer = [b'.'; 64];
    match write_certificate(&mut buffer, h, c, rows) {
        Ok(n) => write!(out, "write {name}: 0, length {n}: [")?,
        Err(fault) => write!(out, "write {name}: {}, length 0: [", fault.number())?,
    }
    out.write_all(&buffer)?;
    writeln!(out, "]")
}

// The history with its event 0 by another process.
fn by_process(mut h: History, process: u8) -> History {
    h.events[0].process = ProcessNo(process);
    h
}

// The certificate with the past of event 1 as these two events.
fn with_past(mut c: Certificate, first: u8, second: u8) -> Certificate {
    let mut past = no_list();
    past.push(first);
    past.push(second);
    c.pasts[1] = past;
    c
}

// Records of Q and a weak certificate of it, as they are read and with one thing changed. The changes are a past, the history and a view;
// no readable text stands for a past that falls, for a history of process 8, or for an entry that is no event.
fn records<W: Write>(out: &mut W) -> io::Result<()> {
    let mut rows = [[0u8; 64]; 64];
    let Ok(texts) = read_certificate(
        QUEUE,
        b"criterion weak\nevent past\n0 -\n1 0\nview order\n0 0\n1 0,1\n",
        &mut rows,
    ) else {
        return Ok(());
    };
    let h = texts.history;
    let c = texts.certificate;
    say_record(out, "as it is read", h, c, &rows)?;
    say_record(out, "a past that rises", h, with_past(c, 0, 1), &rows)?;
    say_record(out, "a past that falls", h, with_past(c, 1, 0), &rows)?;
    say_record(out, "a history of process 7", by_process(h, 7), c, &rows)?;
    say_record(out, "a history of process 8", by_process(h, 8), c, &rows)?;
    rows[1][1] = 2;
    say_record(out, "an entry that is no event", h, c, &rows)
}

// Certificates of Q that are read.
const OF_CRITERIA: [(&str, &[u8]); 6] = [
    ("sequential", b"criterion sequential\nview order\n0 0,1\n"),
    ("pram", b"criterion pram\nview order\n0 0,1\n1 0,1\n"),
    (
        "weak",
        b"criterion weak\nevent past\n0 -\n1 0\nview order\n0 0\n1 0,1\n",
    ),
    (
        "converge",
        b"criterion converge\nevent past\n0 -\n1 0\nview order\n0 0,1\n",
    ),
    (
        "strict",
        b"criterion strict\nevent past\n0 -\n1 0\nview order\n0 0,1\n1 0,1\n",
    ),
    (
        "repeats in a view",
        b"criterion sequential\nview order\n0 1,1\n",
    ),
];

// The criterion, and the lists of a certificate.
const OF_LISTS: [(&str, &[u8]); 4] = [
    (
        "unknown criterion",
        b"criterion atomic\nview order\n0 0,1\n",
    ),
    (
        "past not rising",
        b"criterion weak\nevent past\n0 1,0\n1 0\nview order\n0 0\n1 0,1\n",
    ),
    (
        "no such event",
        b"criterion weak\nevent past\n0 2,1\n1 0\nview order\n0 0\n1 0,1\n",
    ),
    (
        "too many entries",
        b"criterion weak\nevent past\n0 1,1,1\n1 0\nview order\n0 0\n1 0,1\n",
    ),
];

// The lines of a certificate.
const OF_LINES: [(&str, &[u8]); 7] = [
    (
        "wrong own number",
        b"criterion pram\nview order\n0 0,1\n2 0,1\n",
    ),
    ("a line too few", b"criterion pram\nview order\n0 0,1\n"),
    (
        "a heading too early",
        b"criterion weak\nevent past\n0 -\nview order\n0 0\n1 0,1\n",
    ),
    (
        "a line too many",
        b"criterion sequential\nview order\n0 0,1\n1 0,1\n",
    ),
    (
        "an empty line too many",
        b"criterion sequential\nview order\n0 0,1\n\n",
    ),
    (
        "no final line feed",
        b"criterion sequential\nview order\n0 0,1",
    ),
    ("empty text", b""),
];

// Certificates of the empty history.
const OF_NOTHING: [(&str, &[u8]); 6] = [
    (
        "nothing, sequential",
        b"criterion sequential\nview order\n0 -\n",
    ),
    (
        "nothing, converge",
        b"criterion converge\nevent past\nview order\n0 -\n",
    ),
    ("nothing, pram", b"criterion pram\nview order\n"),
    (
        "nothing, causal",
        b"criterion causal\nevent past\nview order\n",
    ),
    (
        "nothing, strict",
        b"criterion strict\nevent past\nview order\n",
    ),
    (
        "nothing, pram with a view",
        b"criterion pram\nview order\n0 -\n",
    ),
];

fn main(rt: HostRuntime) -> io::Result<()> {
    let mut out = io::writer(&rt);
    cases(&mut out, QUEUE, &OF_CRITERIA)?;
    cases(&mut out, QUEUE, &OF_LISTS)?;
    cases(&mut out, QUEUE, &OF_LINES)?;
    cases(&mut out, NOTHING, &OF_NOTHING)?;
    faulty_history(&mut out)?;
    long_texts(&mut out)?;
    records(&mut out)
}
