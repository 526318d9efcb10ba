// Numbers on tapes and in a state's bytes: little-endian, of one, two, four or eight bytes.
ghost use Rattle.std.specs.Prelude.{◌≡◌, ◌+◌, ◌*◌, ◌≤◌, ℕ, List, length, get_or};
ghost use Rattle.tape.specs.Numbers.{u16_at, u32_at, u64_at, span_at};

use text::spans::Span;

// The number of two bytes, the low one first.
fn word(a: u8, b: u8) -> u16
    ensures { result ≡ a + b * 256 }
{
    (a as u16) | ((b as u16) << 8)
}

// The number of four bytes, the lowest first.
fn long(a: u8, b: u8, c: u8, d: u8) -> u32
    ensures { result ≡ a + b * 256 + c * 65536 + d * 16777216 }
{
    (a as u32) | ((b as u32) << 8) | ((c as u32) << 16) | ((d as u32) << 24)
}

// What a tape carries behind a command's code: a value that takes SIZE bytes, and can be read off any place that has them.
pub trait Operand {
    ghost SIZE: { ℕ };

    ghost value: { List ℕ → ℕ → Self };

    const SIZE: usize;

    fn read(tape: &[u8], at: usize) -> Self
        requires { at + SIZE ≤ length tape.now }
        ensures { result ≡ value tape.now at };
}

impl Operand for u8 {
    ghost SIZE = { 1 };

    ghost value = { λ t i. get_or t i 0 };

    const SIZE: usize = 1;

    fn read(tape: &[u8], at: usize) -> u8 {
        tape[at]
    }
}

impl Operand for u16 {
    ghost SIZE = { 2 };

    ghost value = { u16_at };

    const SIZE: usize = 2;

    fn read(tape: &[u8], at: usize) -> u16 {
        word(tape[at], tape[at + 1])
    }
}

impl Operand for u32 {
    ghost SIZE = { 4 };

    ghost value = { u32_at };

    const SIZE: usize = 4;

    fn read(tape: &[u8], at: usize) -> u32 {
        long(tape[at], tape[at + 1], tape[at + 2], tape[at + 3])
    }
}

impl Operand for u64 {
    ghost SIZE = { 8 };

    ghost value = { u64_at };

    const SIZE: usize = 8;

    fn read(tape: &[u8], at: usize) -> u64 {
        u64::from(u32::read(tape, at)) + (u64::from(u32::read(tape, at + 4)) << 32)
    }
}

impl Operand for Span {
    ghost SIZE = { 4 };

    ghost value = { span_at };

    const SIZE: usize = 4;

    fn read(tape: &[u8], at: usize) -> Span {
        Span {
            start: u16::read(tape, at),
            len: u16::read(tape, at + 2),
        }
    }
}
