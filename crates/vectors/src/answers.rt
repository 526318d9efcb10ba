// What was computed and what is expected: a few values in order.
ghost use Rattle.std.specs.Prelude.{◌≡◌, map};
ghost use Rattle.vectors.specs.Lines.{words};
ghost use Rattle.vectors.specs.Values.{value_of};
ghost use Rattle.vectors.specs.Answers.{empty, with_value, with_values, same_values};

use crate::lines::Words;
use crate::values::value_of;

// So many values an answer holds.
pub const MOST: usize = 16;

// The first n of `v`. An n over 16 says that there were more values, and makes the answer differ from every other.
// kept: no program here takes memory from a heap, so the values stand in a fixed buffer with their number beside it.
#[derive(Clone, Copy)]
pub struct Answer {
    pub n: usize,
    pub v: [u64; MOST],
}

pub fn no_values() -> Answer
    ensures { result ≡ empty }
{
    Answer { n: 0, v: [0; MOST] }
}

#[tactic(auto, unfolding(crate::specs::Answers::with_value))]
pub fn with_value(a: Answer, x: u64) -> Answer
    ensures { result ≡ with_value a x }
{
    let n = a.n;
    let mut b = a;
    if n < MOST {
        b.v[n] = x;
        b.n = n + 1;
    } else {
        b.n = MOST + 1;
    }
    b
}

// The answer with each byte of s as one more value.
pub fn with_bytes(a: Answer, s: &[u8]) -> Answer
    ensures { result ≡ with_values a s.now }
{
    s.iter().fold(a, |b, x| with_value(b, u64::from(*x)))
}

// The answer that is one word.
pub fn named(word: &[u8]) -> Answer
    ensures { result ≡ with_value empty (value_of word.now) }
{
    with_value(no_values(), value_of(word))
}

// The values of the words of s.
pub fn values_of(s: &[u8]) -> Answer
    ensures { result ≡ with_values empty (map value_of (words s.now)) }
{
    Words { left: s }
        .map(|word| value_of(word))
        .fold(no_values(), |a, x| with_value(a, x))
}

// kept: no derived `==`: an answer of more than sixteen values is like none, not even like itself.
#[tactic(auto, unfolding(crate::specs::Answers::same_values))]
pub fn same_values(a: Answer, b: Answer) -> bool
    ensures { result ≡ same_values a b }
{
    a.n == b.n && a.n <= MOST && a.v[..a.n] == b.v[..b.n]
}
