// Fields that hold a number. A field's layout comes before its limits, so it says first whether it is laid out as it should
// be, and inside whether it is within its limits.
ghost use Rattle.std.specs.Prelude.{◌≡◌, ◌≤◌};
ghost use Rattle.history.specs.Steps.Fields.{number_field, optional_field};

use crate::fault::Fault;
use layout::number::{NumberFault, read_number};
use layout::word::is_word;

// A number below a bound.
#[tactic(auto, unfolding(crate::specs::Steps::Fields::number_field, layout::specs::Number::number_of, layout::specs::Number::below))]
pub fn number_field(field: &[u8], bound: u64) -> Result<Result<u64, Fault>, Fault>
    requires { bound ≤ 4294967296 }
    ensures { result ≡ number_field bound field.now }
{
    match read_number(field, bound) {
        Ok(n) => Ok(Ok(n)),
        Err(NumberFault::Over) => Ok(Err(Fault::Limits)),
        Err(NumberFault::NotNumber) => Err(Fault::Layout),
    }
}

// The same of a field that may be `-`, which holds none.
#[tactic(auto, unfolding(crate::specs::Steps::Fields::number_field, crate::specs::Steps::Fields::optional_field))]
pub fn optional_field(field: &[u8], bound: u64) -> Result<Result<Option<u64>, Fault>, Fault>
    requires { bound ≤ 4294967296 }
    ensures { result ≡ optional_field bound field.now }
{
    if is_word(field, b"-") {
        return Ok(Ok(None));
    }
    Ok(number_field(field, bound)?.map(Some))
}
