// Sets of events as rows of 64 bits: event e is in a row where bit e is 1.

#![tactic(auto, using(crate::proofs::BitLaws::row_laws))]

ghost use Rattle.std.specs.Prelude.{◌≡◌, not, ◌&&◌, ◌||◌, ℕ, ◌<◌, eqb};
ghost use Rattle.criteria.specs.Tests.{any};
ghost use Rattle.orders.specs.Rows.{in_row};

// Whether an event is in a row.
pub fn in_row(row: u64, e: usize) -> bool
    requires { e < 64 }
    ensures { result ≡ in_row row e }
{
    (row >> e) & 1 == 1
}

// Whether some event is in a row.
pub fn holds_some(row: u64) -> bool
    ensures { result ≡ any 64 (in_row row) }
{
    row != 0
}

// The row of one event.
fn only(e: usize) -> u64
    requires { e < 64 }
    ensures { (f : ℕ) → in_row result f ≡ eqb f e }
{
    1 << e
}

// The events that are in one of two rows, in both, and in the first but not in the second.
fn either(a: u64, b: u64) -> u64
    ensures { (e : ℕ) → in_row result e ≡ (in_row a e || in_row b e) }
{
    a | b
}

pub fn both(a: u64, b: u64) -> u64
    ensures { (e : ℕ) → in_row result e ≡ (in_row a e && in_row b e) }
{
    a & b
}

fn except(a: u64, b: u64) -> u64
    ensures { (e : ℕ) → in_row result e ≡ (in_row a e && not (in_row b e)) }
{
    a & !b
}

// The events that are not in a row.
pub fn others(row: u64) -> u64
    ensures { (e : ℕ) → e < 64 → in_row result e ≡ not (in_row row e) }
{
    !row
}

// A row and one event more.
pub fn with_event(row: u64, e: usize) -> u64
    requires { e < 64 }
    ensures { (f : ℕ) → in_row result f ≡ (in_row row f || eqb f e) }
{
    either(row, only(e))
}

// A row without one event.
pub fn without_event(row: u64, e: usize) -> u64
    requires { e < 64 }
    ensures { (f : ℕ) → in_row result f ≡ (in_row row f && not (eqb f e)) }
{
    except(row, only(e))
}

// Whether some event is in both rows.
pub fn meets(a: u64, b: u64) -> bool
    ensures { result ≡ any 64 (λ g. in_row a g && in_row b g) }
{
    holds_some(both(a, b))
}

// Whether some event is in row a and not in row b.
pub fn escapes(a: u64, b: u64) -> bool
    ensures { result ≡ any 64 (λ g. in_row a g && not (in_row b g)) }
{
    holds_some(except(a, b))
}
