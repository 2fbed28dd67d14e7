// What the check says of two texts that were read.
ghost use Rattle.std.specs.Prelude.{◌≡◌, IfSome};
ghost use Rattle.history_reader.specs.declared.place.Text.TheVariants.{Neither};

use certificate::record::Criterion;
use faults::finding::Finding;
use history_reader::place::Place;

// The criterion that the certificate names, what was found of it, and the line of the event of what was found, which is one of a text.
#[derive(Clone, Copy)]
pub struct Checked {
    pub criterion: Criterion,
    pub finding: Option<Finding>,
    pub place: Option<Place>,
    pub ghost named: { ∥ IfSome place (λ p. p.text ≡ Neither → ⊥) ∥₁ },
}
