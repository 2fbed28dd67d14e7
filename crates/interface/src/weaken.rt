// Weakening a certificate text for a history text.
ghost use Rattle.std.specs.Prelude.{◌≡◌};
ghost use Rattle.checker.specs.WeakenText.{weaken_answer, weaken_length, weaken_bytes};

use crate::made::give_made;
use weakener::weaken::weaken;

// The answer of weakening a certificate text to the criterion wanted, into a lent buffer.
pub fn walnutgleam_weaken(
    history: &[u8],
    certificate: &[u8],
    wanted: u32,
    buffer: &mut [u8],
    length: &mut u64,
) -> u32
    ensures { (result ≡ (weaken_answer history.now certificate.now wanted buffer.old).number) × (buffer.new ≡ weaken_bytes history.now certificate.now wanted buffer.old) × (length.new ≡ weaken_length history.now certificate.now wanted buffer.old) }
{
    let made = weaken(history, certificate, wanted, buffer);
    give_made(made, length)
}
