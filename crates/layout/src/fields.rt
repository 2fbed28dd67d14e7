// A line as fields, with a space behind each but the last, and a line feed behind that.
ghost use Rattle.std.specs.Prelude.{◌≡◌, ◌+◌, ◌*◌, ◌^◌, ◌≤◌, ◌<◌, ℕ, List, map, length};
ghost use Rattle.layout.specs.Fill.{fill};
ghost use Rattle.layout.specs.Fields.{pieces_text, field_piece};

use crate::line::byte_behind;
use crate::pieces::{CountedPieces, Pieces, pieces_len, put_pieces};

// A field that is written by itself.
pub trait Field {
    ghost text: { Self → List ℕ };

    // Writes the field into a part that has room.
    fn put(&self, part: &mut [u8]) -> usize
        requires { length (text self.now) ≤ length part.old }
        ensures { (result ≡ length (text self.now)) × (part.new ≡ fill (text self.now) part.old) };
}

// A field whose bytes are counted too.
pub trait CountedField: Field {
    // No field has more bytes.
    ghost longest: { ℕ };

    // How many bytes the field has.
    fn text_len(&self) -> usize
        ensures { (result ≡ length (Self.text self.now)) × (result ≤ longest) };

    ghost short: { longest < 4294967296 };
}

// The fields, each with the byte behind it.
#[derive(Drop)]
struct FieldPieces<'a, F> {
    fields: &'a [F],
}

impl<F: Field> Pieces for FieldPieces<'_, F> {
    ghost count = { λ l. length l.fields.now };

    ghost piece = { λ l i. field_piece (map F.text l.fields.now) i };

    fn count(&self) -> usize {
        self.fields.len()
    }

    fn put_piece(&self, part: &mut [u8], i: usize) -> usize {
        let k = self.fields[i].put(part);
        part[k] = byte_behind(i, self.fields.len());
        k + 1
    }
}

impl<F: CountedField> CountedPieces for FieldPieces<'_, F> {
    ghost most = { F.longest + 1 };

    fn piece_len(&self, i: usize) -> usize {
        self.fields[i].text_len() + 1
    }
}

// Writes the line of the fields into a part that has room.
// Kept: no `Display`: the clause says what stands in the part and behind it, and there is no heap.
pub fn put_fields<F: Field>(part: &mut [u8], fields: &[F]) -> usize
    requires { length (pieces_text (map F.text fields.now)) ≤ length part.old }
    ensures { (result ≡ length (pieces_text (map F.text fields.now))) × (part.new ≡ fill (pieces_text (map F.text fields.now)) part.old) }
{
    let pieces = FieldPieces { fields };
    put_pieces(part, &pieces)
}

// How many bytes the line of the fields has.
pub fn fields_len<F: CountedField>(fields: &[F]) -> usize
    requires { (F.longest + 1) * length fields.now < 2 ^ 64 }
    ensures { (result ≡ length (pieces_text (map F.text fields.now))) × (result ≤ (F.longest + 1) * length fields.now) }
{
    let pieces = FieldPieces { fields };
    pieces_len(&pieces)
}
