// Tests of an order given by rows: row e says which events come before e.
ghost use Rattle.std.specs.Prelude.{◌≡◌, not, ◌&&◌, ◌≤◌, ◌<◌, IfSome};
ghost use Rattle.layout.specs.Options.{option_in};
ghost use Rattle.criteria.specs.Tests.{any, lowest, found_if};
ghost use Rattle.criteria.specs.Check.{lacks_past};
ghost use Rattle.orders.specs.Rows.{in_rows};

use crate::sets::{escapes, in_row};

// 12: the lowest e below n that is in its own row.
// Kept: this and `lacks_own` as `not_transitive`, which looks into all rows, so that the three tests take an order and n alike; with
// slices the searches would be no shorter.
pub fn in_own_past(rows: &[u64; 64], n: usize) -> Option<usize>
    requires { n ≤ 64 }
    ensures found { option_in result ≡ lowest n (λ e. found_if (in_rows rows.now e e) e) }
    ensures below { IfSome result (λ e. e < n) }
{
    (0..n).find(|&e| in_row(rows[e], e))
}

// 11: the lowest e below n whose row of `must` is not inside its row.
pub fn lacks_own(rows: &[u64; 64], must: &[u64; 64], n: usize) -> Option<usize>
    requires { n ≤ 64 }
    ensures found { option_in result ≡ lowest n (λ e. found_if (any 64 (λ f. in_rows must.now f e && not (in_rows rows.now f e))) e) }
    ensures below { IfSome result (λ e. e < n) }
{
    (0..n).find(|&e| escapes(must[e], rows[e]))
}

// 13, at e: whether some f is before e, and some g before f and not before e.
pub fn lacks_past(rows: &[u64; 64], e: usize) -> bool
    requires { e < 64 }
    ensures { result ≡ lacks_past 64 (in_rows rows.now) e }
{
    (0..64).any(|f| in_row(rows[e], f) && escapes(rows[f], rows[e]))
}

// 13: the lowest such e below n.
// Kept: an order is all its rows; n says how many events are asked: none where a criterion has no pasts.
pub fn not_transitive(rows: &[u64; 64], n: usize) -> Option<usize>
    requires { n ≤ 64 }
    ensures found { option_in result ≡ lowest n (λ e. found_if (lacks_past 64 (in_rows rows.now) e) e) }
    ensures below { IfSome result (λ e. e < n) }
{
    (0..n).find(|&e| lacks_past(rows, e))
}
