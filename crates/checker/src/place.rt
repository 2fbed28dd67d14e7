// The line that an answer carries.
ghost use Rattle.std.specs.Prelude.{◌≡◌, ◌≤◌, IfSome};
ghost use Rattle.layout.specs.Options.{option_in};
ghost use Rattle.history_reader.specs.declared.place.Text.TheVariants.{Neither};
ghost use Rattle.history_reader.specs.Place.{place_in, line_of};
ghost use Rattle.criteria.specs.Check.{answer_of};
ghost use Rattle.checker.specs.CheckText.{place_of};
ghost use Rattle.faults.specs.Finding.{found_of};

use faults::finding::{Finding, event_of};
use history_reader::place::{Place, Text, event_place};

// The line of the event that a finding carries, in a history text that has `declared` objects.
pub(crate) fn place_of(history: &[u8], declared: usize, finding: Option<Finding>) -> Option<Place>
    requires { declared ≤ 16 }
    ensures line { place_in result ≡ place_of history.now declared (answer_of (found_of finding)).event }
    ensures named { IfSome result (λ p. p.text ≡ Neither → ⊥) }
{
    event_of(finding).map(|event| event_place(history, declared, usize::from(event.0)))
}

// The number of a place's line, where a text is named.
pub fn line_of(place: Option<Place>) -> Option<usize>
    ensures { option_in result ≡ line_of (place_in place) }
{
    place.filter(|p| p.text != Text::Neither).map(|p| p.line)
}
