// Bytes compared with a fixed word, and searched.
ghost use Rattle.std.specs.Prelude.{◌≡◌, true, ℕ, Bool, List, ◌≤◌, ◌<◌, ◌%◌, length, drop, eqb};
ghost use Rattle.std.specs.Fn.{FnReturnsAt};
ghost use Rattle.text.specs.Bytes.{find_from, find, over_ascii};
ghost use Rattle.text.specs.Bytes as bytes;

// The first byte that is not ASCII.
pub const ASCII_END: u8 = 0x80;

// Whether two slices have the same bytes.
pub fn same(a: &[u8], b: &[u8]) -> bool
    ensures { result ≡ bytes.same a.now b.now }
{
    a == b
}

// So many bytes are tested at once, without a branch on a byte, so that the compiler can take many at a time. What is left of the long blocks is
// tested by the short ones, and what is left of those byte by byte.
const LONG: usize = 256;

const SHORT: usize = 32;

// Whether no byte of `s` is `b`.
fn lacks(s: &[u8], b: u8) -> bool
    ensures { result ≡ true → find (eqb b) s.now ≡ None }
{
    s.iter().fold(true, |all, x| all & (*x != b))
}

// Whether no byte of `s` is over 7F.
fn is_ascii(s: &[u8]) -> bool
    ensures { result ≡ true → find over_ascii s.now ≡ None }
{
    s.iter().fold(0, |all, x| all | *x) < ASCII_END
}

// How many bytes the blocks of this size have at the front of `s` that pass a test.
pub fn passed_blocks<F: Fn(&[u8]) -> bool>(s: &[u8], size: usize, passes: F) -> usize
    requires size_nonzero { 0 < size }
    requires callable { F.IsAlwaysCallable passes }
    ensures inside { result ≤ length s.now }
    ensures whole { result % size ≡ 0 }
    ensures passed { (p : ℕ → Bool) → ((block : List ℕ) → FnReturnsAt F.Fn passes block true → find p block ≡ None) → find p s.now ≡ find_from p result (drop result s.now) }
{
    let mut passed = 0;
    for block in s.chunks_exact(size) {
        if !passes(block) {
            return passed;
        }
        passed += size;
    }
    passed
}

// The place of the first byte of `s` that is `b`.
pub fn find_byte(s: &[u8], b: u8) -> Option<usize>
    ensures { result ≡ find (eqb b) s.now }
{
    let passed = passed_blocks(s, SHORT, |block| lacks(block, b));
    let at = s[passed..].iter().position(|x| *x == b)?;
    Some(passed + at)
}

// The place of the first byte of `s` over 7F.
pub fn find_over_ascii(s: &[u8]) -> Option<usize>
    ensures { result ≡ find over_ascii s.now }
{
    // a run of other characters should not pay for a block at each of them
    if !s.first()?.is_ascii() {
        return Some(0);
    }
    let long = passed_blocks(s, LONG, is_ascii);
    let passed = long + passed_blocks(&s[long..], SHORT, is_ascii);
    let at = s[passed..].iter().position(|x| !x.is_ascii())?;
    Some(passed + at)
}
