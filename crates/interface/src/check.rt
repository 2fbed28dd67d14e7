// Checking a certificate text for a history text.
ghost use Rattle.std.specs.Prelude.{◌≡◌, ◌≤◌};
ghost use Rattle.layout.specs.Options.{option_in};
ghost use Rattle.history_reader.specs.Place.{text_in};
ghost use Rattle.replays.specs.Replay.{found_event};
ghost use Rattle.faults.specs.Finding.{or_none};
ghost use Rattle.checker.specs.CheckText.{check_text};
ghost use Rattle.checker.specs.Verdict.{verdict_of};
ghost use Rattle.interface.specs.Places.{criterion_number, criterion_place, text_number, places_of, placed};
ghost use Rattle.interface.specs.Steps.{SmallPlace};

use certificate::record::Criterion;
use checker::answer::{criterion_in, event_in, number_in, place_in, view_in};
use checker::check::{Checked, check};
use checker::place::line_of;
use history_reader::place::Text;
use history_reader::read::Refusal;

// The number of a criterion, as in the criterion wanted of a weakening.
// Kept: a function and no `From`, which would stand in certificate, below `criterion_number` of specs/Places, the definition that states it.
fn criterion_number(c: Criterion) -> u32
    ensures { result ≡ criterion_number c }
{
    match c {
        Criterion::Pram => 0,
        Criterion::Weak => 1,
        Criterion::Causal => 2,
        Criterion::Converge => 3,
        Criterion::Sequential => 4,
        Criterion::Strict => 5,
    }
}

// The number of a text: 1 for the history, 2 for the certificate. 0 stands for none.
// Kept: a function and no `From`, which would stand in history_reader, below `text_number` of specs/Places, the definition that states it.
fn text_number(t: Text) -> u32
    ensures { result ≡ text_number (text_in t) }
{
    match t {
        Text::History => 1,
        Text::Certificate => 2,
        Text::Neither => 0,
    }
}

// What stands for none.
// Kept: the C interface has numbers alone.
const NONE: u32 = 4294967295;

// A number, or what stands for none.
fn or_none(n: Option<u32>) -> u32
    ensures { result ≡ or_none (option_in n) }
{
    n.unwrap_or(NONE)
}

// The places of the answer: criterion, text, line, view, event, and the start and the length of the line.
fn places_of(answer: Result<Checked, Refusal>) -> [u32; 7]
    requires { SmallPlace (verdict_of answer).place }
    ensures { result ≡ places_of (verdict_of answer) }
{
    let criterion = or_none(criterion_in(answer).map(criterion_number));
    let view = or_none(view_in(answer).map(u32::from));
    let event = or_none(event_in(answer).map(|e| u32::from(e.0)));
    let place = place_in(answer);
    let line = or_none(line_of(place).map(|line| line as u32));
    match place {
        Some(place) => {
            let text = text_number(place.text);
            let start = place.start as u32;
            let length = (place.end - place.start) as u32;
            [criterion, text, line, view, event, start, length]
        }
        None => [criterion, 0, line, view, event, 0, 0],
    }
}

// Puts the places into a lent slice as far as it goes, and leaves alone what is past them.
fn put_places(places: &mut [u32], all: [u32; 7])
    ensures { places.new ≡ placed all places.old }
{
    let n = places.len().min(all.len());
    places[..n].copy_from_slice(&all[..n]);
}

// The answer of the check of two texts.
pub fn walnutgleam_check(history: &[u8], certificate: &[u8]) -> u32
    ensures { result ≡ (check_text history.now certificate.now).number }
{
    number_in(check(history, certificate))
}

// The same answer; its places go into a lent slice.
pub fn walnutgleam_verdict(history: &[u8], certificate: &[u8], places: &mut [u32]) -> u32
    ensures { (result ≡ (check_text history.now certificate.now).number) × (places.new ≡ placed (places_of (check_text history.now certificate.now)) places.old) }
{
    let answer = check(history, certificate);
    put_places(places, places_of(answer));
    number_in(answer)
}
