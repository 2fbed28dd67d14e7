// Lists of numbers: read from a field, measured and written.
ghost use Rattle.std.specs.Prelude.{◌≡◌, ℕ, ◌≤◌, ◌∷◌, map, length, leb};
ghost use Rattle.layout.specs.Split.{split};
ghost use Rattle.layout.specs.Number.{spell};
ghost use Rattle.layout.specs.List.{items_of, judged, list_of, leading, list_text};
ghost use Rattle.layout.specs.Fill.{fill, written, after};
ghost use Rattle.layout.specs.Steps.List.{pushed, kept, tail_text};

use crate::fill::put_bytes;
use crate::number::{NumberFault, number_len, put_number, read_number};
use crate::word::is_word;

// Why a field is no list of at most so many numbers below a bound.
#[derive(Clone, Copy, Debug, PartialEq, Eq)]
pub enum ListFault {
    // Some item is no number.
    NotList,
    // Every item is a number, and some is not below the bound.
    Over,
    // Every item is a number below the bound, and there are too many.
    Many,
}

// The count of items so far, after one item more: a number is kept in the next place, and of two faults the graver stands.
#[tactic(auto, unfolding(crate::specs::Steps::List::pushed, crate::specs::Steps::List::kept, crate::specs::Steps::List::joined, crate::specs::Steps::List::held))]
fn push_item(
    items: &mut [u32],
    so_far: Result<usize, ListFault>,
    item: &[u8],
    bound: u64,
) -> Result<usize, ListFault>
    requires { bound ≤ 4294967296 }
    ensures { (result ≡ pushed bound (length items.old) so_far item.now) × (items.new ≡ kept bound so_far item.now items.old) }
{
    match (so_far, read_number(item, bound)) {
        (Err(ListFault::NotList), _) | (_, Err(NumberFault::NotNumber)) => Err(ListFault::NotList),
        (Err(ListFault::Over), _) | (_, Err(NumberFault::Over)) => Err(ListFault::Over),
        (Err(ListFault::Many), _) => Err(ListFault::Many),
        (Ok(n), Ok(v)) => {
            if n >= items.len() {
                return Err(ListFault::Many);
            }
            items[n] = v as u32;
            Ok(n + 1)
        }
    }
}

// Reads items with commas between them, up to one that is no number: nothing behind that changes the answer.
fn read_items(field: &[u8], bound: u64, items: &mut [u32]) -> Result<usize, ListFault>
    requires { bound ≤ 4294967296 }
    ensures { (result ≡ judged bound (length items.old) (split 44 field.now)) × (items.new ≡ fill (leading bound (length items.old) (split 44 field.now)) items.old) }
{
    let mut so_far = Ok(0);
    for item in field.split(|b| *b == b',') {
        so_far = push_item(items, so_far, item, bound);
        if matches!(so_far, Err(ListFault::NotList)) {
            return so_far;
        }
    }
    so_far
}

// Reads a field as a list of numbers below a bound, at most as many as there are places in items, and keeps the numbers in
// the first of them: all of them where the field is such a list.
#[tactic(auto, using(crate::proofs::ListLaws::leading_empty), unfolding(crate::specs::List::list_of, crate::specs::List::items_of, crate::specs::List::judged, crate::specs::List::all_numbers, crate::specs::List::all_below, crate::specs::Fill::fill))]
pub fn read_list(field: &[u8], bound: u64, items: &mut [u32]) -> Result<usize, ListFault>
    requires { bound ≤ 4294967296 }
    ensures { (result ≡ list_of bound (length items.old) field.now) × (items.new ≡ fill (leading bound (length items.old) (items_of field.now)) items.old) }
{
    if is_word(field, b"-") {
        return Ok(0);
    }
    read_items(field, bound, items)
}

// An item of a list, of any width.
// Kept: no `Into<u32>`: its `converts` is a relation, and the clauses need the number itself (`map T.number`).
pub trait Item {
    // The number that is written for it.
    ghost number: { Self → ℕ };

    // That number.
    fn number(&self) -> u32
        ensures { result ≡ number self.now };
}

impl Item for u8 {
    ghost number = { λ n. n };

    fn number(&self) -> u32 {
        // The byte has a name, so that the edit `half_of_each_byte` changes it here alone.
        let byte = *self;
        u32::from(byte)
    }
}

impl Item for u16 {
    ghost number = { λ n. n };

    fn number(&self) -> u32 {
        u32::from(*self)
    }
}

impl Item for u32 {
    ghost number = { λ n. n };

    fn number(&self) -> u32 {
        *self
    }
}

// How many bytes the text of a list has.
pub fn list_len<T: Item>(items: &[T]) -> usize
    requires { length items.now ≤ 64 }
    ensures { (result ≡ length (list_text (map T.number items.now))) × (result ≤ 704) }
{
    if items.is_empty() {
        return 1;
    }
    let mut total = 0;
    for x in items {
        total += number_len(x.number()) + 1;
    }
    total - 1
}

// Writes a comma and a number into a part that has room.
fn put_item(part: &mut [u8], x: u32) -> usize
    requires { length (44 ∷ spell x) ≤ length part.old }
    ensures { (result ≡ length (44 ∷ spell x)) × (part.new ≡ fill (44 ∷ spell x) part.old) }
{
    part[0] = b',';
    put_number(&mut part[1..], x) + 1
}

// Writes numbers, each with a comma before it, into a part that has room.
fn put_tail<T: Item>(part: &mut [u8], items: &[T]) -> usize
    requires { length (tail_text (map T.number items.now)) ≤ length part.old }
    ensures { (result ≡ length (tail_text (map T.number items.now))) × (part.new ≡ fill (tail_text (map T.number items.now)) part.old) }
{
    let mut at = 0;
    for item in items {
        at += put_item(&mut part[at..], item.number());
    }
    at
}

// Writes a list into the first bytes of a part that has room, and says how many there are.
pub fn put_list<T: Item>(part: &mut [u8], items: &[T]) -> usize
    requires { length (list_text (map T.number items.now)) ≤ length part.old }
    ensures { (result ≡ length (list_text (map T.number items.now))) × (part.new ≡ fill (list_text (map T.number items.now)) part.old) }
{
    let [first, others @ ..] = items else {
        return put_bytes(part, b"-");
    };
    let k = put_number(part, first.number());
    k + put_tail(&mut part[k..], others)
}

// Whether the text of a list of any length fits into so much room. It stops at the first item that does not, so nothing is
// counted beyond the room.
fn list_fits(items: &[u32], room: usize) -> bool
    ensures { result ≡ leb (length (list_text items.now)) room }
{
    let [first, others @ ..] = items else {
        return 1 <= room;
    };
    let Some(mut left) = room.checked_sub(number_len(*first)) else {
        return false;
    };
    for x in others {
        let k = number_len(*x) + 1;
        if left < k {
            return false;
        }
        left -= k;
    }
    true
}

// Writes a list of any length into the first bytes of a part, and says how many there are. A part that is too short is
// refused, and left as it was.
pub fn write_list(part: &mut [u8], items: &[u32]) -> Option<usize>
    ensures { (result ≡ written (list_text items.now) part.old) × (part.new ≡ after (list_text items.now) part.old) }
{
    if !list_fits(items, part.len()) {
        return None;
    }
    Some(put_list(part, items))
}
