// Bytes in hexadecimal, and words as numbers.
ghost use Rattle.std.specs.Prelude.{◌≡◌, true, ◌≤◌, ◌<◌, ◌^◌, length, take, drop, IfSome};
ghost use Rattle.std.specs.Iterator.{YieldsFirst, item_count};
ghost use Rattle.vectors.specs.Values.{digit_of, mark_of, folded, hex_bytes, is_hexadecimal, is_decimal, value_of, letters_of};

use crate::lines::inked;
use text::bytes::same;

// Values below this are numbers; a word's letters are counted from here on.
pub const WORDS: u64 = 0x4000_0000_0000_0000;

// Values are folded modulo this, which keeps eleven letters of a word.
const RANGE: u64 = 0x0800_0000_0000_0000;

// What a hexadecimal digit counts.
fn digit(b: u8) -> Option<u8>
    ensures value { result ≡ digit_of b }
    ensures upper_bound { IfSome result (λ n. n < 16) }
{
    match b {
        b'0'..=b'9' => Some(b - b'0'),
        b'A'..=b'F' => Some(b - b'A' + 10),
        b'a'..=b'f' => Some(b - b'a' + 10),
        _ => None,
    }
}

// The bytes that the pairs of digits at the front of a text say. Blanks may stand between the pairs.
#[derive(Drop)]
struct Pairs<'a> {
    left: &'a [u8],
}

impl<'a> Iterator for Pairs<'a> {
    type Item = u8;

    ghost next_gives = { YieldsFirst (λ s. hex_bytes s.left.now) };

    ghost remaining = { item_count (λ s. hex_bytes s.left.now) };

    #[tactic(auto, using(crate::proofs::Pairs::no_pair, crate::proofs::Pairs::at_pair))]
    fn next(&mut self) -> Option<u8> {
        let [a, b, behind @ ..] = inked(self.left) else {
            return None;
        };
        let byte = digit(*a)? * 16 + digit(*b)?;
        self.left = behind;
        Some(byte)
    }
}

// Puts the bytes that the pairs of digits at the front of s say into `out`, as far as it has room, and answers how many.
#[tactic(auto, using(crate::proofs::Pairs::came_end, crate::proofs::Pairs::came_full, crate::proofs::Pairs::came_pair))]
pub fn hex_bytes(s: &[u8], out: &mut [u8]) -> usize
    ensures upper_bound { (result ≤ length out.new) × (result ≡ length (take result out.new)) }
    ensures out_after { take result out.new ≡ take (length out.old) (hex_bytes s.now) }
{
    let mut n = 0;
    for byte in (Pairs { left: s }) {
        if n == out.len() {
            break;
        }
        out[n] = byte;
        n += 1;
    }
    n
}

// What a byte counts in a number of this base, or, in base 32, in a word: the letters of both cases count 1 to 26. What is no digit counts 16.
#[tactic(auto, unfolding(crate::specs::Values::mark_of))]
fn mark(base: u64, b: u8) -> u64
    ensures value { result ≡ mark_of base b }
    ensures upper_bound { result < 32 }
{
    if base == 32 {
        return u64::from(b % 32);
    }
    u64::from(digit(b).unwrap_or(16))
}

// The number that the bytes make in this base.
fn fold(s: &[u8], base: u64) -> u64
    requires { base ≤ 32 }
    ensures value { result ≡ folded base 0 s.now }
    ensures upper_bound { result < 2 ^ 59 }
{
    let mut value: u64 = 0;
    for b in s {
        value = (value * base + mark(base, *b)) % RANGE;
    }
    value
}

// `U+20AC` and `0xac` are numbers in hexadecimal.
#[tactic(auto, unfolding(crate::specs::Values::is_hexadecimal))]
fn is_hexadecimal(word: &[u8]) -> bool
    ensures value { result ≡ is_hexadecimal word.now }
    ensures in_bounds { result ≡ true → 2 ≤ length word.now }
{
    word.len() >= 3 && (same(&word[..2], b"U+") || same(&word[..2], b"0x"))
}

// A number in decimal begins with a digit.
#[tactic(auto, unfolding(crate::specs::Values::is_decimal))]
fn is_decimal(word: &[u8]) -> bool
    ensures { result ≡ is_decimal word.now }
{
    matches!(word, [b'0'..=b'9', ..])
}

// The number that a word says, or, for any other word, one that stands for its letters.
#[tactic(auto, unfolding(crate::specs::Values::value_of))]
pub fn value_of(word: &[u8]) -> u64
    ensures { result ≡ value_of word.now }
{
    if is_hexadecimal(word) {
        return fold(&word[2..], 16);
    }
    if is_decimal(word) {
        return fold(word, 10);
    }
    WORDS + fold(word, 32)
}

// Puts the letters of a word's value at the end of `out`, in lower case and as far as it has room, and answers where they start.
pub fn letters_of(value: u64, out: &mut [u8]) -> usize
    ensures upper_bound { result ≤ length out.new }
    ensures out_after { drop result out.new ≡ letters_of (length out.old) value }
{
    let mut left = value % RANGE;
    for i in (0..out.len()).rev() {
        if left == 0 {
            return i + 1;
        }
        out[i] = 96 + (left % 32) as u8;
        left /= 32;
    }
    0
}
