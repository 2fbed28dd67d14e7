// What an operation answers, as a number and a length.
ghost use Rattle.std.specs.Prelude.{◌≡◌, Err};
ghost use Rattle.weakener.specs.Made.{verdict_made, length_of};
ghost use Rattle.interface.specs.Steps.{number_given, length_given};

use checker::answer::number_in;
use weakener::made::{Made, Unmade};

// The documents' number of why no text was made.
// Kept: a function here and no method of `Unmade`, since the C interface alone asks for the number.
pub(crate) fn unmade_number(unmade: Unmade) -> u32
    ensures { result ≡ (verdict_made (Err unmade)).number }
{
    match unmade {
        Unmade::Refused(refusal) => u32::from(refusal.fault.number()),
        Unmade::NotPair(_) => 17,
        Unmade::Faulty(checked) => number_in(Ok(checked)),
        Unmade::Crossing(_) => 26,
        Unmade::TooShort(_) => 18,
    }
}

// The answer of an operation as the documents' number, 0 where there is a text, and the length of the text, 0 where there is none.
// Kept: the C interface has a number and a length.
pub(crate) fn give(answer: Result<u64, u32>, length: &mut u64) -> u32
    ensures { (result ≡ number_given answer) × (length.new ≡ length_given answer) }
{
    match answer {
        Ok(n) => {
            *length = n;
            0
        }
        Err(number) => {
            *length = 0;
            number
        }
    }
}

// The same of an operation that makes a text.
pub(crate) fn give_made(made: Result<Made, Unmade>, length: &mut u64) -> u32
    ensures { (result ≡ (verdict_made made).number) × (length.new ≡ length_of made) }
{
    give(made.map(|m| m.length as u64).map_err(unmade_number), length)
}
