// What an answer of the check carries.
ghost use Rattle.std.specs.Prelude.{◌≡◌};
ghost use Rattle.layout.specs.Options.{option_in};
ghost use Rattle.history_reader.specs.Place as places;
ghost use Rattle.replays.specs.Replay.{found_event};
ghost use Rattle.checker.specs.Verdict.{verdict_of};

use crate::checked::Checked;
use certificate::record::Criterion;
use faults::finding::{event_of, number_of, view_of};
use history::record::EventNo;
use history_reader::place::Place;
use history_reader::read::Refusal;

// The documents' number of the answer.
pub fn number_in(answer: Result<Checked, Refusal>) -> u32
    ensures { result ≡ (verdict_of answer).number }
{
    match answer {
        Ok(checked) => number_of(checked.finding),
        Err(refusal) => u32::from(refusal.fault.number()),
    }
}

// The criterion that the certificate names, where both texts were read.
pub fn criterion_in(answer: Result<Checked, Refusal>) -> Option<Criterion>
    ensures { option_in result ≡ (verdict_of answer).criterion }
{
    answer.ok().map(|checked| checked.criterion)
}

// The line of the refusal, or of the event that was found.
pub fn place_in(answer: Result<Checked, Refusal>) -> Option<Place>
    ensures { places.place_in result ≡ (verdict_of answer).place }
{
    match answer {
        Ok(checked) => checked.place,
        Err(refusal) => Some(refusal.place),
    }
}

// The number of the view that was found.
pub fn view_in(answer: Result<Checked, Refusal>) -> Option<u8>
    ensures { option_in result ≡ (verdict_of answer).view }
{
    view_of(answer.ok()?.finding)
}

// The event that was found.
pub fn event_in(answer: Result<Checked, Refusal>) -> Option<EventNo>
    ensures { found_event result ≡ (verdict_of answer).event }
{
    event_of(answer.ok()?.finding)
}
