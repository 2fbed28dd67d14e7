// The C interface: the functions that a C program calls by name, each a call of the library's function of the same name. It is built as
// the archive libwalnutgleam.a, and include/walnutgleam.h declares what it exports.

#![tactic(auto)]

ghost use Rattle.std.specs.Prelude.{◌≡◌};
ghost use Rattle.history_reader.specs.ReadHistory.{read_history};
ghost use Rattle.certificate_reader.specs.ReadCertificate.{read_certificate};
ghost use Rattle.checker.specs.CheckText.{check_text};
ghost use Rattle.checker.specs.OneLine.{line_answer, line_length, line_bytes};
ghost use Rattle.checker.specs.WeakenText.{weaken_answer, weaken_length, weaken_bytes};
ghost use Rattle.interface.specs.Places.{places_of, placed};
ghost use Rattle.interface.specs.Rewrite.{rewritten, rewritten_bytes, rewritten_length};

use interface::{check, rewrite, sequential, weaken};

// The answer of the check of two texts.
#[unsafe(no_mangle)]
pub extern "C" fn walnutgleam_check(history: &[u8], certificate: &[u8]) -> u32
    ensures { result ≡ (check_text history.now certificate.now).number }
{
    check::walnutgleam_check(history, certificate)
}

// The same answer; its places go into a lent slice.
#[unsafe(no_mangle)]
pub extern "C" fn walnutgleam_verdict(history: &[u8], certificate: &[u8], places: &mut [u32]) -> u32
    ensures { (result ≡ (check_text history.now certificate.now).number) × (places.new ≡ placed (places_of (check_text history.now certificate.now)) places.old) }
{
    check::walnutgleam_verdict(history, certificate, places)
}

// A history text, read and written back into a lent buffer.
#[unsafe(no_mangle)]
pub extern "C" fn walnutgleam_rewrite_history(
    history: &[u8],
    buffer: &mut [u8],
    length: &mut u64,
) -> u32
    ensures { (result ≡ rewritten (read_history history.now).fault history.now buffer.old) × (buffer.new ≡ rewritten_bytes (read_history history.now).fault history.now buffer.old) × (length.new ≡ rewritten_length (read_history history.now).fault history.now buffer.old) }
{
    rewrite::walnutgleam_rewrite_history(history, buffer, length)
}

// A certificate text of a history text, read and written back into a lent buffer.
#[unsafe(no_mangle)]
pub extern "C" fn walnutgleam_rewrite_certificate(
    history: &[u8],
    certificate: &[u8],
    buffer: &mut [u8],
    length: &mut u64,
) -> u32
    ensures { (result ≡ rewritten (read_certificate history.now certificate.now).fault certificate.now buffer.old) × (buffer.new ≡ rewritten_bytes (read_certificate history.now certificate.now).fault certificate.now buffer.old) × (length.new ≡ rewritten_length (read_certificate history.now certificate.now).fault certificate.now buffer.old) }
{
    rewrite::walnutgleam_rewrite_certificate(history, certificate, buffer, length)
}

// The answer of weakening a certificate text to the criterion wanted, into a lent buffer.
#[unsafe(no_mangle)]
pub extern "C" fn walnutgleam_weaken(
    history: &[u8],
    certificate: &[u8],
    wanted: u32,
    buffer: &mut [u8],
    length: &mut u64,
) -> u32
    ensures { (result ≡ (weaken_answer history.now certificate.now wanted buffer.old).number) × (buffer.new ≡ weaken_bytes history.now certificate.now wanted buffer.old) × (length.new ≡ weaken_length history.now certificate.now wanted buffer.old) }
{
    weaken::walnutgleam_weaken(history, certificate, wanted, buffer, length)
}

// The answer of putting a certificate text in one line, into a lent buffer.
#[unsafe(no_mangle)]
pub extern "C" fn walnutgleam_sequential(
    history: &[u8],
    certificate: &[u8],
    buffer: &mut [u8],
    length: &mut u64,
) -> u32
    ensures { (result ≡ (line_answer history.now certificate.now buffer.old).number) × (buffer.new ≡ line_bytes history.now certificate.now buffer.old) × (length.new ≡ line_length history.now certificate.now buffer.old) }
{
    sequential::walnutgleam_sequential(history, certificate, buffer, length)
}
