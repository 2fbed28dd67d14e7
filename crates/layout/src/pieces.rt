// A text as pieces, one behind the other: the lines of a text, the fields of a line.
ghost use Rattle.std.specs.Prelude.{◌≡◌, ◌*◌, ◌^◌, ◌≤◌, ◌<◌, ◌++◌, ℕ, List, length};
ghost use Rattle.layout.specs.Fill.{fill};
ghost use Rattle.layout.specs.Pieces.{pieces_from};

use crate::fill::put_bytes;

// Pieces that are written one at a time, by their places.
pub trait Pieces {
    // How many pieces there are, and the bytes of the piece in a place.
    ghost count: { Self → ℕ };

    ghost piece: { Self → ℕ → List ℕ };

    // How many pieces there are.
    fn count(&self) -> usize
        ensures { result ≡ count self.now };

    // Writes the piece i into a part that has room.
    fn put_piece(&self, part: &mut [u8], i: usize) -> usize
        requires { (i < count self.now) × (length (piece self.now i) ≤ length part.old) }
        ensures { (result ≡ length (piece self.now i)) × (part.new ≡ fill (piece self.now i) part.old) };
}

// Pieces whose bytes are counted too.
pub trait CountedPieces: Pieces {
    // No piece has more bytes.
    ghost most: { ℕ };

    // How many bytes the piece i has.
    fn piece_len(&self, i: usize) -> usize
        requires { i < Self.count self.now }
        ensures { (result ≡ length (Self.piece self.now i)) × (result ≤ most) };
}

// How many bytes all pieces have.
pub fn pieces_len<P: CountedPieces>(pieces: &P) -> usize
    requires { P.most * P.count pieces.now < 2 ^ 64 }
    ensures { (result ≡ length (pieces_from (P.piece pieces.now) 0 (P.count pieces.now))) × (result ≤ P.most * P.count pieces.now) }
{
    let mut total = 0;
    for i in 0..pieces.count() {
        total += pieces.piece_len(i);
    }
    total
}

// Writes all pieces into a part that has room.
pub fn put_pieces<P: Pieces>(part: &mut [u8], pieces: &P) -> usize
    requires { length (pieces_from (P.piece pieces.now) 0 (P.count pieces.now)) ≤ length part.old }
    ensures { (result ≡ length (pieces_from (P.piece pieces.now) 0 (P.count pieces.now))) × (part.new ≡ fill (pieces_from (P.piece pieces.now) 0 (P.count pieces.now)) part.old) }
{
    let mut at = 0;
    for i in 0..pieces.count() {
        at += pieces.put_piece(&mut part[at..], i);
    }
    at
}

// Writes a heading and all pieces behind it into a part that has room.
pub fn put_headed<P: Pieces>(part: &mut [u8], heading: &[u8], pieces: &P) -> usize
    requires { length (heading.now ++ pieces_from (P.piece pieces.now) 0 (P.count pieces.now)) ≤ length part.old }
    ensures { (result ≡ length (heading.now ++ pieces_from (P.piece pieces.now) 0 (P.count pieces.now))) × (part.new ≡ fill (heading.now ++ pieces_from (P.piece pieces.now) 0 (P.count pieces.now)) part.old) }
{
    let k = put_bytes(part, heading);
    k + put_pieces(&mut part[k..], pieces)
}
