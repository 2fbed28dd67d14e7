// A line of a number and a list of events: a past or a view.
ghost use Rattle.std.specs.Prelude.{◌≡◌, ◌≤◌, not, ◌&&◌, ◌||◌, leb, ltb};
ghost use Rattle.certificate.specs.Record.{no_list};
ghost use Rattle.certificate.specs.Faults.{rising};
ghost use Rattle.certificate.specs.Steps.Lists.{is_past, list_line_of, list_read, pair_read};

use crate::record::EventList;
use history::fault::Fault;
use layout::list::read_list;
use layout::number::is_spelling;
use layout::split::split_once;

// What a list of events is.
#[derive(Clone, Copy, PartialEq, Eq)]
pub enum Sort {
    Past,
    View,
}

// The pasts or the views of a certificate, of a history with `count` events. Every entry is one of these events, and a past rises.
#[derive(Clone, Copy)]
pub struct Part {
    pub sort: Sort,
    pub count: usize,
    pub ghost few: { count ≤ 64 },
}

impl Part {
    // Whether the entries of a list stand as they have to.
    fn in_order(self, items: &[u32]) -> bool
        ensures { result ≡ not (is_past self.sort) || rising items.now }
    {
        self.sort == Sort::View || is_rising(items)
    }

    // Whether an entry may follow others, of which the last is below `low`.
    pub(crate) fn may_follow(self, low: usize, entry: usize) -> bool
        ensures { result ≡ ltb entry self.count && (not (is_past self.sort) || leb low entry) }
    {
        entry < self.count && (self.sort == Sort::View || low <= entry)
    }
}

// The list of no events.
// Kept: no `Default`: a derived one says of each place of an array that it holds 0, where callers take the equation with `no_list` of
// specs/Record; and no one function with `no_numbers` (numbers.rt), since the two give two types.
pub fn no_list() -> EventList
    ensures { result ≡ no_list }
{
    EventList {
        count: 0,
        events: [0u8; 64],
    }
}

// Whether the items are strictly rising.
// Kept: one call of the library's method; one for u8 and u32 would take layout's `Item`, and each caller's answer a `map-id`.
fn is_rising(items: &[u32]) -> bool
    ensures { result ≡ rising items.now }
{
    items.is_sorted_by(|a, b| *a < *b)
}

// Reads the two fields of a line of a part.
fn read_pair(number: &[u8], list: &[u8], own: u32, part: Part) -> Result<EventList, Fault>
    ensures { list_line_of result ≡ pair_read (is_past part.sort) part.count own number.now list.now }
{
    if !is_spelling(number, own) {
        return Err(Fault::Layout);
    }
    let mut items = [0u32; 64];
    let places = &mut items[..part.count];
    let n = read_list(list, part.count as u64, places)?;
    if !part.in_order(&items[..n]) {
        return Err(Fault::NotRising);
    }
    Ok(EventList {
        count: n,
        events: items.map(|e| e as u8),
    })
}

// Reads the line of a part whose number is `own`, without its line feed.
#[tactic(auto, using(layout::proofs::SplitLaws::some_part), unfolding(crate::specs::Steps::Lists::list_read, crate::specs::Steps::Lists::pair_read, crate::specs::Faults::list_fault, crate::specs::Faults::list_said))]
pub(crate) fn read_list_line(line: &[u8], own: u32, part: Part) -> Result<EventList, Fault>
    ensures { list_line_of result ≡ list_read (is_past part.sort) part.count own line.now }
{
    let (number, list) = split_once(line, b' ').ok_or(Fault::Layout)?;
    if split_once(list, b' ').is_some() {
        return Err(Fault::Layout);
    }
    read_pair(number, list, own, part)
}
