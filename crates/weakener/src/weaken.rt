// Weakening on texts.
ghost use Rattle.std.specs.Prelude.{◌≡◌, is_ok, eqb};
ghost use Rattle.checker.specs.WeakenText.{wanted_of, weaken_answer, weaken_length, weaken_bytes};
ghost use Rattle.weakener.specs.Made.{verdict_made, length_of};
ghost use Rattle.weakener.specs.Steps.{wanted_in};

use crate::made::{Made, Unmade, Wanted, make};
use certificate::record::Criterion;

// What a number wants: to be weakened to the criterion of the number, if it is that of one.
#[tactic(auto, using(crate::proofs::TextLaws::wanted_numbered))]
fn wanted_of(number: u32) -> Option<Wanted>
    ensures { result ≡ wanted_in (wanted_of number) }
{
    Criterion::try_from(number).ok().map(Wanted::Named)
}

// Weakens a certificate text for a history text to the criterion wanted, into a lent buffer.
// Kept: the number, since `weaken_answer`, `weaken_length` and `weaken_bytes` of specs/WeakenText speak of it.
pub fn weaken(history: &[u8], text: &[u8], wanted: u32, buffer: &mut [u8]) -> Result<Made, Unmade>
    ensures answer { verdict_made result ≡ weaken_answer history.now text.now wanted buffer.old }
    ensures made { is_ok result ≡ eqb (weaken_answer history.now text.now wanted buffer.old).number 0 }
    ensures length { length_of result ≡ weaken_length history.now text.now wanted buffer.old }
    ensures bytes { buffer.new ≡ weaken_bytes history.now text.now wanted buffer.old }
{
    make(history, text, wanted_of(wanted), buffer)
}
