// One line of stock: reading refusals as in the check, 17 for a certificate without pasts, the faults of the check, 26, 18, or the
// sequential text in the buffer's first bytes.
ghost use Rattle.std.specs.Prelude.{◌≡◌, is_ok, eqb};
ghost use Rattle.checker.specs.OneLine.{line_answer, line_length, line_bytes};
ghost use Rattle.weakener.specs.Made.{verdict_made, length_of};

use crate::made::{Made, Unmade, Wanted, make};

// The sequential certificate text of a certificate text for a history text whose causal order orders every two updates, into a lent buffer.
#[tactic(auto, unfolding(checker::specs::OneLine::line_answer, checker::specs::OneLine::line_length, checker::specs::OneLine::line_bytes, checker::specs::OneLine::one_line_text, checker::specs::OneLine::crossing))]
pub fn sequential(history: &[u8], text: &[u8], buffer: &mut [u8]) -> Result<Made, Unmade>
    ensures answer { verdict_made result ≡ line_answer history.now text.now buffer.old }
    ensures made { is_ok result ≡ eqb (line_answer history.now text.now buffer.old).number 0 }
    ensures length { length_of result ≡ line_length history.now text.now buffer.old }
    ensures bytes { buffer.new ≡ line_bytes history.now text.now buffer.old }
{
    make(history, text, Some(Wanted::OneLine), buffer)
}
