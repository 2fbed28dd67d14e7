// The criteria: their words and numbers, and which certificates have pasts.
ghost use Rattle.std.specs.Prelude.{◌≡◌, cond, [], get_or};
ghost use Rattle.layout.specs.Split.{split};
ghost use Rattle.certificate.specs.Criteria.{has_pasts, is_criterion, criterion_of};
ghost use Rattle.certificate.specs.Faults.{criterion_line};
ghost use Rattle.certificate.specs.Steps.Criteria.{criterion_numbered};

use crate::record::Criterion;
use layout::word::named;

// Whether a certificate of the criterion has the past of each event.
pub fn has_pasts(c: Criterion) -> bool
    ensures { result ≡ has_pasts c }
{
    matches!(
        c,
        Criterion::Weak | Criterion::Causal | Criterion::Converge | Criterion::Strict
    )
}

// The number is no criterion's.
#[derive(Clone, Copy, PartialEq, Eq)]
pub struct NoCriterion;

// The criterion of a number, as the C interface gives it.
impl TryFrom<u32> for Criterion {
    type Error = NoCriterion;

    ghost try_from_gives = { λ n r. r ≡ criterion_numbered n };

    fn try_from(number: u32) -> Result<Criterion, NoCriterion> {
        match number {
            0 => Ok(Criterion::Pram),
            1 => Ok(Criterion::Weak),
            2 => Ok(Criterion::Causal),
            3 => Ok(Criterion::Converge),
            4 => Ok(Criterion::Sequential),
            5 => Ok(Criterion::Strict),
            _ => Err(NoCriterion),
        }
    }
}

// How many pasts a certificate of the criterion has, of a history with so many events.
pub fn past_count(c: Criterion, count: usize) -> usize
    ensures { result ≡ cond (has_pasts c) count 0 }
{
    if has_pasts(c) { count } else { 0 }
}

// The words of the criteria.
const WORDS: [(&[u8], Criterion); 6] = [
    (b"weak", Criterion::Weak),
    (b"causal", Criterion::Causal),
    (b"converge", Criterion::Converge),
    (b"sequential", Criterion::Sequential),
    (b"strict", Criterion::Strict),
    (b"pram", Criterion::Pram),
];

// The criterion of a word.
#[tactic(auto, unfolding(crate::specs::Criteria::is_criterion, crate::specs::Criteria::criterion_of, layout::specs::Steps::Table::named))]
fn read_word(word: &[u8]) -> Option<Criterion>
    ensures { result ≡ cond (is_criterion word.now) (Some (criterion_of word.now)) None }
{
    named(word, &WORDS)
}

// Reads the first line of a certificate, without its line feed: the criterion, or none where the line is not a criterion's.
pub fn read_criterion(line: &[u8]) -> Option<Criterion>
    ensures { result ≡ cond (criterion_line line.now) (Some (criterion_of (get_or (split 32 line.now) 1 []))) None }
{
    read_word(line.strip_prefix(b"criterion ")?)
}
