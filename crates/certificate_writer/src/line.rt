// The fields of a line.
ghost use Rattle.std.proofs.Common.{lit<};
ghost use Rattle.std.specs.Prelude.{◌≡◌, [], ◌∷◌, ◌++◌, map};
ghost use Rattle.layout.specs.Fields.{pieces_text};
ghost use Rattle.certificate.specs.CertificateText.{list_line, criterion_text};
ghost use Rattle.certificate_writer.specs.Steps.Fields.{field_text};

use crate::events::Events;
use certificate::record::Criterion;
use certificate::word::criterion_word;
use layout::fields;
use layout::fill::put_bytes;
use layout::list::{list_len, put_list};
use layout::number::{number_len, put_number};

// A field of a line. The heading is the word that stands before that of the criterion.
#[derive(Clone, Copy)]
pub(crate) enum Field<'a> {
    Heading,
    Criterion(Criterion),
    Number(u32),
    Events(Events<'a>),
}

impl fields::Field for Field<'_> {
    ghost text = { field_text };

    #[tactic(auto, unfolding(crate::specs::Steps::Fields::field_text))]
    fn put(&self, part: &mut [u8]) -> usize {
        match *self {
            Field::Heading => put_bytes(part, b"criterion"),
            Field::Criterion(c) => put_bytes(part, criterion_word(c)),
            Field::Number(n) => put_number(part, n),
            Field::Events(e) => put_list(part, e.events),
        }
    }
}

impl fields::CountedField for Field<'_> {
    ghost longest = { 704 };

    #[tactic(auto, unfolding(crate::specs::Steps::Fields::field_text))]
    fn text_len(&self) -> usize {
        match *self {
            Field::Heading => 9,
            Field::Criterion(c) => criterion_word(c).len(),
            Field::Number(n) => number_len(n),
            Field::Events(e) => list_len(e.events),
        }
    }

    ghost short = { lit< tt };
}

// The fields of the first line.
pub(crate) fn first_line(c: Criterion) -> [Field<'static>; 2]
    ensures { pieces_text (map field_text result) ≡ criterion_text c ++ 10 ∷ [] }
{
    [Field::Heading, Field::Criterion(c)]
}

// The fields of the line of a number and events.
pub(crate) fn list_line(own: u32, events: Events) -> [Field; 2]
    ensures { pieces_text (map field_text result) ≡ list_line own events.entry.events.now ++ 10 ∷ [] }
{
    [Field::Number(own), Field::Events(events)]
}
