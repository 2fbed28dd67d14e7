// Fields in a line.
ghost use Rattle.std.specs.Prelude.{◌≡◌, ◌+◌, ◌<◌, cond, eqb};

// The byte behind field i of n: a space, or a line feed behind the last.
pub fn byte_behind(i: usize, n: usize) -> u8
    requires { i < n }
    ensures { result ≡ cond (eqb (i + 1) n) 10 32 }
{
    if i + 1 == n { b'\n' } else { b' ' }
}
