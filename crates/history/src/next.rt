// The line that a text begins with.
ghost use Rattle.std.specs.Prelude.{◌≡◌, ◌+◌, ◌≤◌, ◌<◌, length, take, MatchOption, IfSome, Err, Ok};
ghost use Rattle.std.specs.Fn.{FnOnceReturnsAt};
ghost use Rattle.layout.specs.Split.{find};
ghost use Rattle.history.specs.declared.fault.Fault.TheVariants.{Layout};

use crate::fault::Fault;
use layout::split::split_once;

// How long a line is, without its line feed, and what it says or its first fault.
#[derive(Clone, Copy)]
pub struct Next<T> {
    pub length: usize,
    pub read: Result<T, Fault>,
}

// Reads the line that a text begins with. Where the quick way read it already, it ends before the line feed behind which the quick
// way stopped; any other line is cut at its line feed and read, and one without a line feed is not laid out as it should be.
pub fn next_line<T: Copy, F: FnOnce(&[u8]) -> Result<T, Fault> + Copy>(
    text: &[u8],
    quick: Option<(T, &[u8])>,
    read: F,
) -> Next<T>
    requires callable { F.IsAlwaysCallable read }
    requires within { IfSome quick (λ r. length r.1.now < length text.now) }
    ensures { MatchOption quick.entry ((result.length ≡ find 10 text.now) × (find 10 text.now < length text.now → FnOnceReturnsAt F.FnOnce read (take (find 10 text.now) text.now) result.read) × (length text.now ≤ find 10 text.now → result.read ≡ Err Layout)) (λ r. (result.length + 1 + length r.1.now ≡ length text.now) × (result.read ≡ Ok r.0)) }
{
    if let Some((value, rest)) = quick {
        return Next {
            length: text.len() - rest.len() - 1,
            read: Ok(value),
        };
    }
    let Some((line, _)) = split_once(text, b'\n') else {
        return Next {
            length: text.len(),
            read: Err(Fault::Layout),
        };
    };
    Next {
        length: line.len(),
        read: read(line),
    }
}
