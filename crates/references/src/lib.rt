// Character references in JSX text and in attribute strings: `&name;`, `&#1;`, `&#x1f;`. They are found and not decoded; an ampersand that opens none is plain text.
//
//     Q & A         plain            &#X41;  &#-1;  &;       plain
//     R&D;          a reference      &#+65;  &#x+41;  &1;    references
#![tactic(auto)]

ghost use Rattle.std.specs.Prelude.{◌≡◌, true, [], ◌∷◌, drop, eqb};
ghost use Rattle.text.specs.Bytes.{ascii, find};
ghost use Rattle.references.specs.References.{is_of, run, begins, has_reference};
ghost use Rattle.references.specs.Walks.{signed, opening_of, Fronts};

use text::bytes::find_byte;

// What stands between a reference's opening and its semicolon: letters and digits, or digits.
#[derive(Clone, Copy)]
pub enum Kind {
    Name,
    Decimal,
    Hexadecimal,
}

impl Kind {
    #[tactic(auto, unfolding(crate::specs::References::is_of))]
    fn contains(self, b: u8) -> bool
        ensures { result ≡ is_of self b }
    {
        match self {
            Kind::Name => b.is_ascii_alphanumeric(),
            Kind::Decimal => b.is_ascii_digit(),
            Kind::Hexadecimal => b.is_ascii_hexdigit(),
        }
    }
}

// What an ampersand can open: bytes of this kind behind so many bytes.
#[derive(Clone, Copy)]
struct Opening {
    kind: Kind,
    len: usize,
}

// How many bytes of this kind stand at the front.
fn run(s: &[u8], kind: Kind) -> usize
    ensures { result ≡ run kind s.now }
{
    s.iter().take_while(|b| kind.contains(**b)).count()
}

// Whether the byte at place i is `b`.
fn is_at(s: &[u8], i: usize, b: u8) -> bool
    ensures { result ≡ begins (b ∷ []) (drop i s.now) }
{
    s.get(i) == Some(&b)
}

// Digits behind n bytes, or behind the plus sign that follows these.
fn behind_plus(s: &[u8], n: usize, kind: Kind) -> Opening
    ensures { result ≡ signed kind n s.now }
{
    if is_at(s, n, b'+') {
        return Opening { kind, len: n + 1 };
    }
    Opening { kind, len: n }
}

// The opening that begins with the ampersand at the front.
fn opening_at(s: &[u8]) -> Opening
    ensures { result ≡ opening_of s.now }
{
    if !is_at(s, 1, b'#') {
        return Opening {
            kind: Kind::Name,
            len: 1,
        };
    }
    if is_at(s, 2, b'x') {
        return behind_plus(s, 3, Kind::Hexadecimal);
    }
    behind_plus(s, 2, Kind::Decimal)
}

// From the ampersand at the front, within how many bytes no reference begins: what was looked at has no other ampersand, and need not be looked at again. None where it opens a
// reference.
fn bare_front(s: &[u8]) -> Option<usize>
    requires { begins (ascii "&") s.now ≡ true }
    ensures { Fronts s.now result }
{
    let opening = opening_at(s);
    let start = opening.len;
    let end = start + run(&s[start..], opening.kind);
    if end == start {
        return Some(end);
    }
    if is_at(s, end, b';') {
        return None;
    }
    Some(end)
}

// The place of the next ampersand. Where they stand side by side, none of them pays for a block of the search.
fn find_ampersand(s: &[u8]) -> Option<usize>
    ensures { result ≡ find (eqb 0x26) s.now }
{
    if is_at(s, 0, b'&') {
        return Some(0);
    }
    find_byte(s, b'&')
}

// Whether a reference stands in `s`. What an ampersand that opens none was followed by is passed, so the cost is linear in the text.
fn has_reference_within(s: &[u8]) -> bool
    ensures { result ≡ has_reference s.now }
{
    let mut rest = s;
    while let Some(sign) = find_ampersand(rest) {
        let Some(bare) = bare_front(&rest[sign..]) else {
            return true;
        };
        rest = &rest[sign + bare..];
    }
    false
}

// Whether a reference stands in `s`. Most texts have no ampersand: those cost one search.
pub fn has_reference(s: &[u8]) -> bool
    ensures { result ≡ has_reference s.now }
{
    let Some(sign) = find_byte(s, b'&') else {
        return false;
    };
    has_reference_within(&s[sign..])
}
