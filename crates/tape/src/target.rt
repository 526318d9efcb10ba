// Writing into a lent target. Each `encode` counts, and stores what is within the target: so one body of code measures (with an empty
// target) and writes.
ghost use Rattle.std.specs.Prelude.{◌≡◌, ℕ, List, [], ◌∷◌, ◌++◌, ◌<◌, ◌^◌, length};
ghost use Rattle.tape.specs.Numbers.{u16_bytes, u32_bytes, u64_bytes, span_bytes};
ghost use Rattle.tape.specs.Targets.{Wrote, Fitted};

use crate::refusal::Refusal;
use text::spans::Span;

// Places stop here, past any target's end.
pub const LAST_PLACE: usize = 0x8000_0000_0000_0000;

// What can be written as bytes.
pub trait Encode {
    ghost bytes: { Self → List ℕ };

    // Writes the bytes at `at`, as far as they are within the target, and gives the place behind them.
    fn encode(self, out: &mut [u8], at: usize) -> usize
        ensures { Wrote out.old out.new at result (bytes self) };
}

// Nothing: a place past the last stops there.
impl Encode for () {
    ghost bytes = { λ _. [] };

    fn encode(self, out: &mut [u8], at: usize) -> usize {
        at.min(LAST_PLACE)
    }
}

impl Encode for u8 {
    ghost bytes = { λ b. b ∷ [] };

    fn encode(self, out: &mut [u8], at: usize) -> usize {
        if at < out.len() {
            out[at] = self;
            return at + 1;
        }
        at.min(LAST_PLACE - 1) + 1
    }
}

impl<'a> Encode for &'a [u8] {
    ghost bytes = { λ s. s.now };

    // Byte by byte: a copy of a length that isn't known here would call the C library.
    #[tactic(auto, using(crate::proofs::Targets::sets_out, crate::proofs::Targets::wrote_as))]
    fn encode(self, out: &mut [u8], at: usize) -> usize {
        if out.len() <= at {
            return at.min(LAST_PLACE - self.len()) + self.len();
        }
        let mut next = at;
        for b in self {
            next = (*b).encode(out, next);
        }
        next
    }
}

impl<const N: usize> Encode for [u8; N] {
    ghost bytes = { λ a. a };

    // One test where there is room for nothing, one more where there is room for all: inlined, it stores a number's bytes at once.
    #[inline(always)]
    #[tactic(auto, using(crate::proofs::Targets::sets_out, crate::proofs::Targets::sets_mid, crate::proofs::Targets::wrote_as))]
    fn encode(self, out: &mut [u8], at: usize) -> usize {
        let bytes = self.as_slice();
        if out.len() <= at {
            return at.min(LAST_PLACE - bytes.len()) + bytes.len();
        }
        if bytes.len() <= out.len() - at {
            let end = at + bytes.len();
            out[at..end].copy_from_slice(bytes);
            return end;
        }
        bytes.encode(out, at)
    }
}

// One behind the other.
impl<A: Encode, B: Encode> Encode for (A, B) {
    ghost bytes = { λ p. A.bytes p.0 ++ B.bytes p.1 };

    #[inline(always)]
    fn encode(self, out: &mut [u8], at: usize) -> usize {
        let (first, second) = self;
        let behind = first.encode(out, at);
        second.encode(out, behind)
    }
}

impl Encode for u16 {
    ghost bytes = { u16_bytes };

    fn encode(self, out: &mut [u8], at: usize) -> usize {
        [((self << 8) >> 8) as u8, (self >> 8) as u8].encode(out, at)
    }
}

impl Encode for u32 {
    ghost bytes = { u32_bytes };

    fn encode(self, out: &mut [u8], at: usize) -> usize {
        [
            ((self << 24) >> 24) as u8,
            ((self << 16) >> 24) as u8,
            ((self << 8) >> 24) as u8,
            (self >> 24) as u8,
        ]
        .encode(out, at)
    }
}

impl Encode for u64 {
    ghost bytes = { u64_bytes };

    fn encode(self, out: &mut [u8], at: usize) -> usize {
        let number = self.to_le_bytes();
        number.encode(out, at)
    }
}

impl Encode for Span {
    ghost bytes = { span_bytes };

    fn encode(self, out: &mut [u8], at: usize) -> usize {
        [
            ((self.start << 8) >> 8) as u8,
            (self.start >> 8) as u8,
            ((self.len << 8) >> 8) as u8,
            (self.len >> 8) as u8,
        ]
        .encode(out, at)
    }
}

// What `put` writes, at the target's front, if there is room for all of it: it is measured first.
pub fn write_fitting<F: Fn(&mut [u8]) -> usize>(target: &mut [u8], put: F) -> Result<usize, Refusal>
    requires { F.IsAlwaysCallable put }
    ensures { (bs : List ℕ) → length bs < 2 ^ 63 → ((o : _) (r : ℕ) (o' : _) → F.post put o r o' → Wrote o.now o'.now 0 r bs) → Fitted bs target.old result target.new }
{
    let size = put(&mut []);
    if target.len() < size {
        return Err(Refusal::Space(size));
    }
    put(target);
    Ok(size)
}
