// Writing a certificate of a history: its lines in the first bytes of a lent part.
ghost use Rattle.std.specs.Prelude.{◌≡◌, ◌≤◌, length};
ghost use Rattle.layout.specs.Fill.{fill};
ghost use Rattle.history_writer.specs.WriteHistory.{written_of};
ghost use Rattle.certificate_writer.specs.WriteCertificate.{writable, certificate_written, certificate_after};
ghost use Rattle.certificate_writer.specs.Steps.Lines.{past_bytes};
ghost use Rattle.certificate_writer.specs.Steps.Text.{parts_bytes, text_bytes};

use crate::limits::fits_history;
use crate::line::first_line;
use crate::lines::{Lines, PastLines, ViewLines};
use certificate::criterion::{has_pasts, past_count};
use certificate::numbers::view_numbers;
use certificate::record::{Certificate, Criterion};
use history::record::History;
use history_writer::limits::is_within;
use history_writer::write::WriteFault;
use layout::fields::{fields_len, put_fields};
use layout::pieces::{pieces_len, put_headed};

const PAST_HEADING: &[u8] = b"event past\n";

const VIEW_HEADING: &[u8] = b"view order\n";

// How many bytes the part of the pasts has: none where the criterion has no pasts.
fn pasts_len(c: Criterion, pasts: &PastLines) -> usize
    ensures { (result ≡ length (past_bytes c pasts.now.pasts.now)) × (result ≤ 90251) }
{
    if has_pasts(c) {
        return PAST_HEADING.len() + pieces_len(pasts);
    }
    0
}

// Writes the part of the pasts into a part that has room: nothing where the criterion has no pasts.
#[tactic(auto, unfolding(layout::specs::Fill::fill))]
fn put_pasts(part: &mut [u8], c: Criterion, pasts: &PastLines) -> usize
    requires { length (past_bytes c pasts.now.pasts.now) ≤ length part.old }
    ensures { (result ≡ length (past_bytes c pasts.now.pasts.now)) × (part.new ≡ fill (past_bytes c pasts.now.pasts.now) part.old) }
{
    if has_pasts(c) {
        return put_headed(part, PAST_HEADING, pasts);
    }
    0
}

// Writes the parts behind the first line into a part that has room.
fn put_parts(part: &mut [u8], lines: &Lines) -> usize
    requires { length (parts_bytes lines.now) ≤ length part.old }
    ensures { (result ≡ length (parts_bytes lines.now)) × (part.new ≡ fill (parts_bytes lines.now) part.old) }
{
    let k = put_pasts(part, lines.criterion, &lines.pasts);
    k + put_headed(&mut part[k..], VIEW_HEADING, &lines.views)
}

// How many bytes the whole text has.
fn certificate_len(lines: &Lines) -> usize
    ensures { result ≡ length (text_bytes lines.now) }
{
    fields_len(&first_line(lines.criterion))
        + pasts_len(lines.criterion, &lines.pasts)
        + VIEW_HEADING.len()
        + pieces_len(&lines.views)
}

// Writes the whole text into a part that has room.
fn put_certificate(part: &mut [u8], lines: &Lines) -> usize
    requires { length (text_bytes lines.now) ≤ length part.old }
    ensures { (result ≡ length (text_bytes lines.now)) × (part.new ≡ fill (text_bytes lines.now) part.old) }
{
    let k = put_fields(part, &first_line(lines.criterion));
    k + put_parts(&mut part[k..], lines)
}

// Whether a record and its rows are within the limits that a history within its own limits sets.
fn is_writable(h: &History, c: &Certificate, rows: &[[u8; 64]; 64]) -> bool
    ensures { result ≡ writable h.now c.now rows.now }
{
    is_within(h) && fits_history(h, c, rows)
}

// Writes the text of a certificate of a history into the first bytes of a buffer, and gives its length. A record that is not within its
// limits or whose history is not (9) and a buffer that is too short (18) are refused, and the buffer stays as it was.
// Kept: the rows lie beside the certificate, since `read_certificate` leaves those it was lent as they were on a refusal (`rows_read`).
pub fn write_certificate(
    buf: &mut [u8],
    h: History,
    c: Certificate,
    rows: &[[u8; 64]; 64],
) -> Result<usize, WriteFault>
    ensures { (written_of result ≡ certificate_written h c rows.now buf.old) × (buf.new ≡ certificate_after h c rows.now buf.old) }
{
    if !is_writable(&h, &c, rows) {
        return Err(WriteFault::OutsideLimits);
    }
    let numbers = view_numbers(c.criterion, h.recorded_events());
    let pasts = PastLines {
        pasts: &c.pasts[..past_count(c.criterion, h.count)],
    };
    let views = ViewLines {
        numbers: numbers.all(),
        lengths: &c.lengths[..numbers.count],
        rows: &rows[..numbers.count],
    };
    let lines = Lines {
        criterion: c.criterion,
        pasts,
        views,
    };
    let n = certificate_len(&lines);
    if buf.len() < n {
        return Err(WriteFault::TooShort);
    }
    put_certificate(buf, &lines);
    Ok(n)
}
