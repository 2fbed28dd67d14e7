// The answer of an event: at most eight values, or one that was lost.
ghost use Rattle.std.specs.Prelude.{◌≡◌};
ghost use Rattle.history.specs.Record.{no_answer, lost_answer};
ghost use Rattle.history.specs.Steps.Fields.{answer_field};

use crate::fault::Fault;
use crate::record::{Answer, VALUES, Value};
use layout::list::{ListFault, read_list};
use layout::word::is_word;

pub fn no_answer() -> Answer
    ensures { result ≡ no_answer }
{
    Answer {
        lost: false,
        count: 0,
        values: [0; 8],
    }
}

pub fn lost_answer() -> Answer
    ensures { result ≡ lost_answer }
{
    Answer {
        lost: true,
        ..no_answer()
    }
}

// What a field is as an answer: `?`, or a list. One of more than eight values, which no op can give, is none.
#[tactic(auto, unfolding(crate::specs::Steps::Fields::answer_field, crate::specs::Steps::Fields::answer_short, crate::specs::Faults::is_lost, crate::specs::Faults::answer_items, crate::specs::Faults::answer_said, layout::specs::List::list_of, layout::specs::List::judged, layout::specs::List::all_numbers, layout::specs::List::all_below))]
pub fn answer_field(field: &[u8]) -> Result<Result<Option<Answer>, Fault>, Fault>
    ensures { result ≡ answer_field field.now }
{
    if is_word(field, b"?") {
        return Ok(Ok(Some(lost_answer())));
    }
    let mut items = [0u32; 8];
    match read_list(field, VALUES, &mut items) {
        Ok(n) => Ok(Ok(Some(Answer {
            lost: false,
            count: n as u8,
            values: items.map(|v| v as Value),
        }))),
        Err(ListFault::Many) => Ok(Ok(None)),
        Err(ListFault::Over) => Ok(Err(Fault::Limits)),
        Err(ListFault::NotList) => Err(Fault::Layout),
    }
}
