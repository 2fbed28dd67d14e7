// Reading a history text.
ghost use Rattle.std.specs.Prelude.{◌≡◌, ◌+◌, ◌-◌, ◌≤◌, [], length, take, drop, Result, Ok, Err};
ghost use Rattle.layout.specs.Split.{split};
ghost use Rattle.history.specs.Faults.{fault_number};
ghost use Rattle.history_reader.specs.ReadHistory.{refusal, history_read, events_from, objects_from, lines_from, read_history, faulty_line};
ghost use Rattle.history_reader.specs.Steps.{ObjectsRead};

use crate::objects::Declared;
use crate::place::{Place, Text, faulty_place};
use event_reader::next::next_event;
use history::fault::Fault;
use history::object::read_object;
use history::record::{History, no_event, no_object};
use layout::split::split_once;
use layout::word::is_word;

// The longest history text that is read.
const LONGEST: usize = 16384;

// A reading refusal: the first fault, and the place of its line.
#[derive(Clone, Copy)]
pub struct Refusal {
    pub fault: Fault,
    pub place: Place,
}

// Refuses the line of this number that goes from `start` to `end`.
// Kept: no struct of the lines left, as the certificate reader has one with a `refuse` and a `heading`: a line's number follows from the
// count of what was read, so the place where the next line begins is all that travels, and such a struct would hold the number a second
// time; the one heading that `read_lines` reads and the refusal of a layout are all that the two readers would share.
fn refuse(fault: Fault, line: usize, start: usize, end: usize) -> Refusal
    requires { start ≤ end }
    ensures { history_read (Err result) ≡ refusal (fault_number fault) line start (end - start) }
{
    Refusal {
        fault,
        place: faulty_place(Text::History, line, start, end),
    }
}

// Reads the lines after the heading of the objects, which begin at `from`, up to the heading of the events.
// Kept: a line ends where its line feed stands, and the last of them where the heading of the events does; no `for` is plainer.
fn read_objects(text: &[u8], from: usize) -> Result<Declared, Refusal>
    requires { from ≤ length text.now }
    ensures { ObjectsRead (objects_from [] 2 from (split 10 (drop from text.now))) text.now result }
{
    let mut objects = [no_object(); 16];
    let mut declared = 0;
    let mut start = from;
    loop {
        let number = declared + 2;
        let Some((line, _)) = split_once(&text[start..], b'\n') else {
            return Err(refuse(Fault::Layout, number, start, text.len()));
        };
        let end = start + line.len();
        if is_word(line, b"event process object op value answer") {
            return Ok(Declared {
                objects,
                declared,
                end: end + 1,
            });
        }
        objects[declared] = read_object(line, declared as u32).map_err(|fault| refuse(
            fault, number, start, end,
        ))?;
        declared += 1;
        start = end + 1;
    }
}

// Reads the lines of the events, after those of the objects.
// Kept: reading a line tells where it ends and the next one begins; no `for` is plainer.
fn read_events(text: &[u8], read: Declared) -> Result<History, Refusal>
    requires { read.end ≤ length text.now }
    ensures { history_read result ≡ events_from (take read.declared read.objects) [] (read.declared + 3) read.end (split 10 (drop read.end text.now)) }
{
    let objects = &read.objects[..read.declared];
    let mut events = [no_event(); 64];
    let mut count = 0;
    let mut start = read.end;
    while start < text.len() {
        let number = read.declared + count + 3;
        let next = next_event(&text[start..], count as u32, objects);
        let end = start + next.length;
        events[count] = next
            .read
            .map_err(|fault| refuse(fault, number, start, end))?;
        count += 1;
        start += next.length + 1;
    }
    Ok(History {
        objects: read.objects,
        declared: read.declared,
        events,
        count,
    })
}

// Reads all lines.
fn read_lines(text: &[u8]) -> Result<History, Refusal>
    ensures { history_read result ≡ lines_from (split 10 text.now) }
{
    let Some((heading, _)) = split_once(text, b'\n') else {
        return Err(refuse(Fault::Layout, 1, 0, text.len()));
    };
    if !is_word(heading, b"object kind width") {
        return Err(refuse(Fault::Layout, 1, 0, heading.len()));
    }
    let declared = read_objects(text, heading.len() + 1)?;
    read_events(text, declared)
}

// Reads a history text of any length and content.
pub fn read_history(text: &[u8]) -> Result<History, Refusal>
    ensures { history_read result ≡ read_history text.now }
{
    if text.len() > LONGEST {
        return Err(refuse(Fault::TooLong, 0, 0, 0));
    }
    read_lines(text)
}

// The faulty line of a history text, as part of that text and without its line feed; empty where there is none.
pub fn faulty_line(text: &[u8]) -> &[u8]
    ensures { result.now ≡ faulty_line text.now }
{
    match read_history(text) {
        Ok(_) => &text[..0],
        Err(refusal) => &text[refusal.place.start..refusal.place.end],
    }
}
