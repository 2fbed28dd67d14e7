// The line of a list that a text begins with: a past or a view.
ghost use Rattle.std.specs.Prelude.{◌≡◌, ◌+◌, ◌≤◌, ◌<◌, ◌++◌, length, IfSome};
ghost use Rattle.layout.specs.Split.{find};
ghost use Rattle.layout.specs.Number.{spell};
ghost use Rattle.certificate.specs.Steps.Lists.{is_past, list_line_of};
ghost use Rattle.certificate.specs.Steps.Next.{ListFirst, LineFirst, next_read};

use crate::list::{Part, no_list, read_list_line};
use crate::record::EventList;
use history::next::{Next, next_line};
use layout::number::number_before_space;

// The quick way goes over a line once. Each of its steps tells what the text begins with and what stands behind it, or nothing where
// it does not know; the line is then cut and read, which also says which fault it has.

// The number of one or two digits that a text begins with, with a byte behind its first digit, and what stands behind the number.
// Kept: `leading_number` of layout in its place was tried: it proves, and the two texts of bench's pair causal-full are then read in 1.60 of
// the time that the reader took before the design pass, where this takes 1.06; the bar is a quarter more.
fn quick_entry(text: &[u8]) -> Option<(usize, &[u8])>
    ensures { IfSome result (λ r. (r.0 < 100) × (text.now ≡ spell r.0 ++ r.1.now)) }
{
    let [b, c, ..] = text else {
        return None;
    };
    if !b.is_ascii_digit() {
        return None;
    }
    let first = usize::from(*b - b'0');
    if !c.is_ascii_digit() {
        return Some((first, &text[1..]));
    }
    if first == 0 {
        return None;
    }
    Some((first * 10 + usize::from(*c - b'0'), &text[2..]))
}

// Reads entries with commas between them up to a line feed, in one pass, and tells what stands behind the line feed. In a past each is
// at least `low`, one more than the one before it.
// A function of its own to the compiler too: as part of its callers the loop has too few registers, and takes up to 1.4 times as long.
// Kept: no one loop with `leading_values` (event_reader::next): here an entry is judged by the one before it, so the step would change what
// it captures, and the laws of the two differ in that too.
// Kept: `EventList::push` in place of `events[k]` was tried: it proves, and where the linker puts the loop well (two places of four) bench's
// pair causal-full is read in 1.24 to 1.27 of the time before the design pass, with `events[k]` in 1.06 to 1.13; the bar is a quarter more.
#[inline(never)]
fn quick_entries(text: &[u8], part: Part) -> Option<(EventList, &[u8])>
    ensures { IfSome result (λ r. ListFirst (is_past part.sort) part.count text.now r.0 r.1.now) }
{
    let mut events = [0u8; 64];
    let mut rest = text;
    let mut low = 0;
    for k in 0..part.count {
        let (entry, behind) = quick_entry(rest)?;
        if !part.may_follow(low, entry) {
            return None;
        }
        events[k] = entry as u8;
        match behind {
            [b'\n', after @ ..] => {
                return Some((
                    EventList {
                        count: k + 1,
                        events,
                    },
                    after,
                ));
            }
            [b',', after @ ..] => rest = after,
            _ => return None,
        }
        low = entry + 1;
    }
    None
}

// Reads the list that a text begins with, with a line feed behind it, and tells what stands behind the line feed.
fn quick_list(text: &[u8], part: Part) -> Option<(EventList, &[u8])>
    ensures { IfSome result (λ r. ListFirst (is_past part.sort) part.count text.now r.0 r.1.now) }
{
    if let Some(rest) = text.strip_prefix(b"-\n") {
        return Some((no_list(), rest));
    }
    quick_entries(text, part)
}

// Reads a line that has no fault and entries of at most two digits, and tells what stands behind its line feed; of any other line it
// tells nothing.
fn quick_line(text: &[u8], own: u32, part: Part) -> Option<(EventList, &[u8])>
    ensures { IfSome result (λ r. LineFirst (is_past part.sort) part.count own text.now r.0 r.1.now) }
{
    let (number, rest) = number_before_space(text, 64)?;
    if number != u64::from(own) {
        return None;
    }
    quick_list(rest, part)
}

// Reads the line that a text begins with as that of a part whose number is `own`.
pub fn next_list(text: &[u8], own: u32, part: Part) -> Next<EventList>
    ensures { (list_line_of result.read ≡ next_read (is_past part.sort) part.count own text.now) × (result.length ≡ find 10 text.now) × (result.length ≤ length text.now) }
{
    let quick = quick_line(text, own, part);
    next_line(text, quick, |line| read_list_line(line, own, part))
}
