// Writing into the first bytes of a lent part.
ghost use Rattle.std.specs.Prelude.{◌≡◌, ◌≤◌, length};
ghost use Rattle.layout.specs.Fill.{fill};

// Writes bytes into the first ones of a part that has room, and says how many.
#[tactic(auto, unfolding(crate::specs::Fill::fill))]
pub fn put_bytes(part: &mut [u8], bytes: &[u8]) -> usize
    requires { length bytes.now ≤ length part.old }
    ensures { (result ≡ length bytes.now) × (part.new ≡ fill bytes.now part.old) }
{
    part[..bytes.len()].copy_from_slice(bytes);
    bytes.len()
}
