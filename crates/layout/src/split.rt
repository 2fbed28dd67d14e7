// Cutting bytes at a byte: lines at 10, fields at 32.
ghost use Rattle.std.specs.Prelude.{◌≡◌, ◌+◌, ◌≤◌, ◌<◌, [], ◌∷◌, length, take, drop, get_or, MatchOption, ◌==◌};
ghost use Rattle.std.specs.List.{position};
ghost use Rattle.layout.specs.Split.{find, split, part_start};

// The place of the first byte b of s.
fn first_place(s: &[u8], b: u8) -> Option<usize>
    ensures { result ≡ position (λ x. x == b) s.now }
{
    s.iter().position(|x| *x == b)
}

// The bytes before the first byte b of s, and those behind it.
pub fn split_once<'a>(s: &'a [u8], b: u8) -> Option<(&'a [u8], &'a [u8])>
    ensures { MatchOption result ((find b s.now ≡ length s.now) × (split b s.now ≡ s.now ∷ [])) (λ p. (find b s.now < length s.now) × (p.0.now ≡ take (find b s.now) s.now) × (p.1.now ≡ drop (find b s.now + 1) s.now) × (split b s.now ≡ p.0.now ∷ split b p.1.now)) }
{
    let e = first_place(s, b)?;
    Some((&s[..e], &s[e + 1..]))
}

// The bytes before the first byte b of s; all of them where there is none.
pub fn first_part(s: &[u8], b: u8) -> &[u8]
    ensures { result.now ≡ take (find b s.now) s.now }
{
    &s[..first_place(s, b).unwrap_or(s.len())]
}

// Where the part with the number k, from 0, begins, of s cut at the bytes b; the length of s where there are not so many.
// Kept: the length and no Option, since `part_start` of specs/Split gives it.
pub fn part_start(s: &[u8], b: u8, k: usize) -> usize
    ensures { (result ≡ part_start b k s.now) × (result ≤ length s.now) × (get_or (split b s.now) k [] ≡ get_or (split b (drop result s.now)) 0 []) }
{
    let mut start = 0;
    for _ in 0..k {
        let Some((part, _)) = split_once(&s[start..], b) else {
            return s.len();
        };
        start += part.len() + 1;
    }
    start
}
