// Where a text stops being UTF-8, by Table 3-7 of the Unicode Standard.
ghost use Rattle.std.specs.Prelude.{◌≡◌};
ghost use Rattle.text.specs.Utf8.{within, nonzero, first_ill};
ghost use Rattle.text.specs.Utf8 as utf8;

use crate::bytes::find_over_ascii;

// Whether s has a byte at i, from lo to hi.
#[tactic(auto, unfolding(crate::specs::Utf8::within))]
fn within_at(s: &[u8], i: usize, lo: u8, hi: u8) -> bool
    ensures { result ≡ within s.now i lo hi }
{
    s.get(i).is_some_and(|b| (lo <= *b) & (*b <= hi))
}

// The width by a row of the table whose first byte fits: for each byte behind that the least and the greatest that it may be.
// Each row is a constant: inlined, its loop is unrolled.
#[inline(always)]
fn rest<const N: usize>(s: &[u8], row: [(u8, u8); N]) -> Option<usize>
    ensures { result ≡ nonzero (utf8.rest row.entry s.now) }
{
    for (i, (lo, hi)) in row.iter().enumerate() {
        if !within_at(s, i + 1, *lo, *hi) {
            return None;
        }
    }
    Some(N + 1)
}

// What most bytes behind the first may be.
const TRAIL: (u8, u8) = (0x80, 0xbf);

// How many bytes the well-formed sequence has with which s begins. The first byte tells the row.
pub fn width(s: &[u8]) -> Option<usize>
    ensures { result ≡ nonzero (utf8.width s.now) }
{
    match s.first()? {
        0x00..=0x7f => Some(1),
        0xc2..=0xdf => rest(s, [TRAIL]),
        0xe0 => rest(s, [(0xa0, 0xbf), TRAIL]),
        0xe1..=0xec => rest(s, [TRAIL, TRAIL]),
        0xed => rest(s, [(0x80, 0x9f), TRAIL]),
        0xee..=0xef => rest(s, [TRAIL, TRAIL]),
        0xf0 => rest(s, [(0x90, 0xbf), TRAIL, TRAIL]),
        0xf1..=0xf3 => rest(s, [TRAIL, TRAIL, TRAIL]),
        0xf4 => rest(s, [(0x80, 0x8f), TRAIL, TRAIL]),
        _ => None,
    }
}

// The start of the first ill-formed sequence of s. Runs of ASCII are passed whole.
pub fn first_ill_formed(s: &[u8]) -> Option<usize>
    ensures { result ≡ first_ill s.now }
{
    let mut rest = s;
    loop {
        let at = find_over_ascii(rest)?;
        rest = &rest[at..];
        let Some(w) = width(rest) else {
            return Some(s.len() - rest.len());
        };
        rest = &rest[w..];
    }
}
