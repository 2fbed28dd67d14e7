// The pairs of criteria that a certificate is weakened by.
ghost use Rattle.std.specs.Prelude.{◌≡◌};
ghost use Rattle.criteria.specs.Weaken.{is_pair};

use certificate::record::Criterion;

// Whether the two are a pair of the documents' list.
pub(crate) fn is_pair(named: Criterion, wanted: Criterion) -> bool
    ensures { result ≡ is_pair named wanted }
{
    match named {
        Criterion::Pram => wanted == Criterion::Pram,
        Criterion::Weak => wanted == Criterion::Weak,
        Criterion::Causal => matches!(
            wanted,
            Criterion::Pram | Criterion::Weak | Criterion::Causal
        ),
        Criterion::Converge => matches!(wanted, Criterion::Weak | Criterion::Converge),
        Criterion::Sequential => true,
        Criterion::Strict => matches!(
            wanted,
            Criterion::Pram | Criterion::Weak | Criterion::Causal | Criterion::Strict
        ),
    }
}
