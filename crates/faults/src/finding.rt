// What the check of a history and a certificate that were read finds.
ghost use Rattle.std.specs.Prelude.{◌≡◌};
ghost use Rattle.layout.specs.Options.{option_in};
ghost use Rattle.criteria.specs.Check.{answer_of};
ghost use Rattle.replays.specs.Replay.{found_event};
ghost use Rattle.faults.specs.Finding.{found_of};

use history::record::EventNo;

// One of the faults 11 to 16 and 20, with the event, the view's number, or both.
#[derive(Clone, Copy, PartialEq, Eq)]
pub enum Finding {
    LacksOwn(EventNo),
    InOwnPast(EventNo),
    LacksPast(EventNo),
    NotItsSet(u8),
    Against(u8),
    Wrong(u8, EventNo),
    OutsidePast(u8),
}

// The documents' number of the answer: 0 where nothing was found.
// Kept: functions of the Option, here and below, and no methods of `Finding`: docs/PROOFS.md and DECISIONS 79 name them, and `answer_of`
// has the case of nothing, whose number is the documents' 0.
pub fn number_of(found: Option<Finding>) -> u32
    ensures { result ≡ (answer_of (found_of found)).number }
{
    match found {
        None => 0,
        Some(Finding::LacksOwn(_)) => 11,
        Some(Finding::InOwnPast(_)) => 12,
        Some(Finding::LacksPast(_)) => 13,
        Some(Finding::NotItsSet(_)) => 14,
        Some(Finding::Against(_)) => 15,
        Some(Finding::Wrong(_, _)) => 16,
        Some(Finding::OutsidePast(_)) => 20,
    }
}

// The number of the view that the answer carries, where it carries one.
pub fn view_of(found: Option<Finding>) -> Option<u8>
    ensures { option_in result ≡ (answer_of (found_of found)).view }
{
    match found? {
        Finding::NotItsSet(v)
        | Finding::Against(v)
        | Finding::Wrong(v, _)
        | Finding::OutsidePast(v) => Some(v),
        Finding::LacksOwn(_) | Finding::InOwnPast(_) | Finding::LacksPast(_) => None,
    }
}

// The event that the answer carries, where it carries one.
pub fn event_of(found: Option<Finding>) -> Option<EventNo>
    ensures { found_event result ≡ (answer_of (found_of found)).event }
{
    match found? {
        Finding::LacksOwn(e)
        | Finding::InOwnPast(e)
        | Finding::LacksPast(e)
        | Finding::Wrong(_, e) => Some(e),
        Finding::NotItsSet(_) | Finding::Against(_) | Finding::OutsidePast(_) => None,
    }
}
