// Numbers in base ten: read from a field of any length, and measured.
ghost use Rattle.std.specs.Prelude.{◌≡◌, ◌+◌, ◌*◌, ◌≤◌, ◌<◌, length, drop, MatchOption, Some, None};
ghost use Rattle.layout.specs.Word.{same};
ghost use Rattle.layout.specs.Number.{below, value, starts_well, number_of, spell};
ghost use Rattle.layout.specs.Fill.{fill};
ghost use Rattle.layout.specs.Steps.Number.{digits, push_digit};
ghost use Rattle.layout.specs.Steps.Leading.{leading_number, number_before_space};

use crate::word::stands_at;

// Why a field is no number below a bound.
#[derive(Clone, Copy, Debug, PartialEq, Eq)]
pub enum NumberFault {
    NotNumber,
    // It is a number, and not below the bound.
    Over,
}

// One digit more. A value that is not below the bound stands still.
#[tactic(auto, unfolding(crate::specs::Steps::Number::push_digit))]
fn push_digit(v: u64, bound: u64, b: u8) -> u64
    requires { (48 ≤ b) × (b ≤ 57) × (bound ≤ 4294967296) × (v ≤ 10 * bound + 9) }
    ensures { (result ≡ push_digit bound v b) × (result ≤ 10 * bound + 9) }
{
    if v < bound {
        return v * 10 + u64::from(b - b'0');
    }
    v
}

// Whether bytes begin as a number does: there is one, and the first of several is not `0`.
#[tactic(auto, unfolding(crate::specs::Number::starts_well))]
fn starts_well(field: &[u8]) -> bool
    ensures { result ≡ starts_well field.now }
{
    match field {
        [] => false,
        [_] => true,
        [first, ..] => *first != b'0',
    }
}

// What the digits that a text begins with say below a bound, and how many there are.
fn leading_digits(text: &[u8], bound: u64) -> (u64, usize)
    requires { bound ≤ 4294967296 }
    ensures { (below bound result.0 ≡ below bound (value (digits text.now))) × (result.1 ≡ length (digits text.now)) × (result.1 ≤ length text.now) }
{
    let mut value = 0;
    for (i, b) in text.iter().enumerate() {
        if !b.is_ascii_digit() {
            return (value, i);
        }
        value = push_digit(value, bound, *b);
    }
    (value, text.len())
}

// Reads a field of any length as a number below a bound.
pub fn read_number(field: &[u8], bound: u64) -> Result<u64, NumberFault>
    requires { bound ≤ 4294967296 }
    ensures { result ≡ number_of bound field.now }
{
    let (value, n) = leading_digits(field, bound);
    if n < field.len() || !starts_well(field) {
        return Err(NumberFault::NotNumber);
    }
    if value < bound {
        return Ok(value);
    }
    Err(NumberFault::Over)
}

// The number below a bound that a text begins with, and how many digits it has.
fn first_number(text: &[u8], bound: u64) -> Option<(u64, usize)>
    requires { bound ≤ 4294967296 }
    ensures { MatchOption result (leading_number bound text.now ≡ None) (λ r. (leading_number bound text.now ≡ Some (r.0, drop r.1 text.now)) × (r.0 < bound) × (r.1 ≤ length text.now)) }
{
    let (value, n) = leading_digits(text, bound);
    if value < bound && starts_well(&text[..n]) {
        return Some((value, n));
    }
    None
}

// The number below a bound that a text begins with, and what stands behind it.
pub fn leading_number(text: &[u8], bound: u64) -> Option<(u64, &[u8])>
    requires { bound ≤ 4294967296 }
    ensures { MatchOption result (leading_number bound text.now ≡ None) (λ r. (leading_number bound text.now ≡ Some (r.0, r.1.now)) × (r.0 < bound)) }
{
    let (number, n) = first_number(text, bound)?;
    Some((number, &text[n..]))
}

// The number below a bound that a text begins with and that has a space behind it, and what stands behind the space.
// Kept: a place and no `strip_prefix`: the edit `word_at_the_start`, which looks for the word at the text's beginning, needs a place that is
// a value (`stands_at`).
pub fn number_before_space(text: &[u8], bound: u64) -> Option<(u64, &[u8])>
    requires { bound ≤ 4294967296 }
    ensures { MatchOption result (number_before_space bound text.now ≡ None) (λ r. (number_before_space bound text.now ≡ Some (r.0, r.1.now)) × (r.0 < bound)) }
{
    let (number, n) = first_number(text, bound)?;
    if !stands_at(text, n, b" ") {
        return None;
    }
    Some((number, &text[n + 1..]))
}

// Whether a field is the spelling of a number: a line's own number.
#[tactic(auto, using(crate::proofs::SpellLaws::own_is))]
pub fn is_spelling(field: &[u8], n: u32) -> bool
    ensures { result ≡ same field.now (spell n) }
{
    read_number(field, u64::from(n) + 1) == Ok(u64::from(n))
}

// How many digits the spelling of a number has. The small numbers, which are most, have arms of their own: a branch that is guessed
// right costs less than a logarithm.
#[tactic(auto, using(crate::proofs::SpellLaws::spell_one, crate::proofs::SpellLaws::spell_two, crate::proofs::SpellLaws::spell_counted))]
pub fn number_len(n: u32) -> usize
    ensures { (result ≡ length (spell n)) × (result ≤ 10) }
{
    match n {
        0..=9 => 1,
        10..=99 => 2,
        _ => n.ilog10() as usize + 1,
    }
}

// Writes the spelling of a number into the first bytes of a part that has room, and says how many there are.
pub fn put_number(part: &mut [u8], n: u32) -> usize
    requires { length (spell n) ≤ length part.old }
    ensures { (result ≡ length (spell n)) × (part.new ≡ fill (spell n) part.old) }
{
    let k = number_len(n);
    let mut rest = n;
    // Kept: no `part[..k].iter_mut().rev()`: a proof knows nothing of what an adapter of `iter_mut` leaves in the slice, so it did not close.
    for i in (0..k).rev() {
        part[i] = b'0' + (rest % 10) as u8;
        rest /= 10;
    }
    k
}
