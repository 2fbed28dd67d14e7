// A text read, and written back from its record: the bytes that were read.
ghost use Rattle.std.specs.Prelude.{◌≡◌};
ghost use Rattle.history_reader.specs.ReadHistory.{read_history};
ghost use Rattle.certificate_reader.specs.ReadCertificate.{read_certificate};
ghost use Rattle.history_writer.specs.WriteHistory.{write_fault_number};
ghost use Rattle.interface.specs.Rewrite.{rewritten, rewritten_bytes, rewritten_length};

use crate::made::give;
use certificate_reader::read::read_certificate;
use certificate_writer::write::write_certificate;
use history_reader::read::{Refusal, read_history};
use history_writer::write::{WriteFault, write_history};

// The documents' number of why a text was not written, as both functions give it.
fn unwritten_number(fault: WriteFault) -> u32
    ensures { result ≡ write_fault_number fault }
{
    u32::from(fault.number())
}

// A history text, into a lent buffer.
pub fn walnutgleam_rewrite_history(history: &[u8], buffer: &mut [u8], length: &mut u64) -> u32
    ensures { (result ≡ rewritten (read_history history.now).fault history.now buffer.old) × (buffer.new ≡ rewritten_bytes (read_history history.now).fault history.now buffer.old) × (length.new ≡ rewritten_length (read_history history.now).fault history.now buffer.old) }
{
    let answer = match read_history(history) {
        Ok(record) => write_history(buffer, record)
            .map(|n| n as u64)
            .map_err(unwritten_number),
        Err(refusal) => Err(u32::from(refusal.fault.number())),
    };
    give(answer, length)
}

// A certificate text of a history text, into a lent buffer.
pub fn walnutgleam_rewrite_certificate(
    history: &[u8],
    certificate: &[u8],
    buffer: &mut [u8],
    length: &mut u64,
) -> u32
    ensures { (result ≡ rewritten (read_certificate history.now certificate.now).fault certificate.now buffer.old) × (buffer.new ≡ rewritten_bytes (read_certificate history.now certificate.now).fault certificate.now buffer.old) × (length.new ≡ rewritten_length (read_certificate history.now certificate.now).fault certificate.now buffer.old) }
{
    let mut rows = [[0u8; 64]; 64];
    let answer = match read_certificate(history, certificate, &mut rows) {
        Ok(read) => {
            let written = write_certificate(buffer, read.history, read.certificate, &rows);
            written.map(|n| n as u64).map_err(unwritten_number)
        }
        Err(unread) => Err(u32::from(Refusal::from(unread).fault.number())),
    };
    give(answer, length)
}
