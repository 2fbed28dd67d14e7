// The words of the criteria, as they are written.
ghost use Rattle.std.specs.Prelude.{◌≡◌, ◌≤◌, length};
ghost use Rattle.certificate.specs.Criteria.{word_of};

use crate::record::Criterion;

// The word of a criterion.
// Kept: a match gives each criterion its word; a look-up in `WORDS` of criterion.rt, the table that reads them, could find none.
#[tactic(auto, unfolding(crate::specs::Criteria::word_of))]
pub fn criterion_word(c: Criterion) -> &'static [u8]
    ensures { (result.now ≡ word_of c) × (length result.now ≤ 10) }
{
    match c {
        Criterion::Pram => b"pram",
        Criterion::Weak => b"weak",
        Criterion::Causal => b"causal",
        Criterion::Converge => b"converge",
        Criterion::Sequential => b"sequential",
        Criterion::Strict => b"strict",
    }
}
