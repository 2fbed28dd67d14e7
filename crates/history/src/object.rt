// The line of an object.
ghost use Rattle.std.specs.Prelude.{◌≡◌};
ghost use Rattle.history.specs.Faults.{object_read, object_three, object_line};

use crate::fault::Fault;
use crate::field::optional_field;
use crate::record::Object;
use crate::word::{fits_dash, has_width, read_kind, width_bound};
use layout::number::is_spelling;
use layout::split::split_once;

// Reads the three fields of the object whose number is `own`: its own number, its kind and its width.
#[tactic(auto, unfolding(crate::specs::Faults::object_three, crate::specs::Faults::object_fault, crate::specs::Faults::first_fault, crate::specs::Faults::object_layout, crate::specs::Faults::object_limits, crate::specs::Faults::object_fits, crate::specs::Faults::is_optional, crate::specs::Faults::optional, crate::specs::Steps::Fields::optional_field))]
fn read_three(number: &[u8], word: &[u8], width: &[u8], own: u32) -> Result<Object, Fault>
    ensures { object_read result ≡ object_three own number.now word.now width.now }
{
    if !is_spelling(number, own) {
        return Err(Fault::Layout);
    }
    let kind = read_kind(word).ok_or(Fault::Layout)?;
    let width = optional_field(width, width_bound(kind))?;
    // The line is laid out as it should be.
    if own >= 16 {
        return Err(Fault::Limits);
    }
    let width = width?;
    if width == Some(0) {
        return Err(Fault::Limits);
    }
    if !fits_dash(has_width(kind), width.is_none()) {
        return Err(Fault::Misfit);
    }
    Ok(Object {
        kind,
        width: width.unwrap_or(0) as u8,
    })
}

// Reads the line of the object whose number is `own`, without its line feed: its object, or its first fault.
#[tactic(auto, using(layout::proofs::SplitLaws::some_part), unfolding(crate::specs::Faults::object_line, crate::specs::Faults::object_fields))]
pub fn read_object(line: &[u8], own: u32) -> Result<Object, Fault>
    ensures { object_read result ≡ object_line own line.now }
{
    let (number, rest) = split_once(line, b' ').ok_or(Fault::Layout)?;
    let (kind, width) = split_once(rest, b' ').ok_or(Fault::Layout)?;
    if split_once(width, b' ').is_some() {
        return Err(Fault::Layout);
    }
    read_three(number, kind, width, own)
}
