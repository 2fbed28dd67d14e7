// One line of stock: the sequential certificate text of a certificate text for a history text.
ghost use Rattle.std.specs.Prelude.{◌≡◌};
ghost use Rattle.checker.specs.OneLine.{line_answer, line_length, line_bytes};

use crate::made::give_made;
use weakener::sequential::sequential;

// The answer of putting a certificate text in one line, into a lent buffer.
pub fn walnutgleam_sequential(
    history: &[u8],
    certificate: &[u8],
    buffer: &mut [u8],
    length: &mut u64,
) -> u32
    ensures { (result ≡ (line_answer history.now certificate.now buffer.old).number) × (buffer.new ≡ line_bytes history.now certificate.now buffer.old) × (length.new ≡ line_length history.now certificate.now buffer.old) }
{
    let made = sequential(history, certificate, buffer);
    give_made(made, length)
}
