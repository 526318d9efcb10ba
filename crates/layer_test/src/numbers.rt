// Numbers of four bytes, written and read: those with one byte set, all ones, then random ones. A checksum of what was written, which expected.py computes by
// Python's own conversion, and a count of those that were not read again, whole or as two halves.
ghost use Rattle.std.specs.Prelude.{◌≡◌, ◌<◌, ◌*◌, ◌-◌, ◌/◌, ◌%◌, ◌^◌};

use crate::random::{mixed, next};
use tape::numbers::Operand;
use tape::target::Encode;
use text::spans::Span;

// Four places with 256 values each.
const ONE_BYTE: u32 = 1024;

const RANDOM: u32 = 100000;

#[derive(Clone, Copy)]
pub struct Tally {
    pub numbers: u32,
    pub differ: u32,
    pub checksum: u32,
}

fn number_at(i: u32, drawn: u32) -> u32
    ensures one_byte { i < 1024 → result ≡ i % 256 * 256 ^ (i / 256) }
    ensures all_ones { i ≡ 1024 → result ≡ 2 ^ 32 - 1 }
    ensures random { 1024 < i → result ≡ drawn }
{
    if i < ONE_BYTE {
        let mut bytes = [0u8; 4];
        bytes[(i / 256) as usize] = (i % 256) as u8;
        return u32::from_le_bytes(bytes);
    }
    if i == ONE_BYTE {
        return u32::MAX;
    }
    drawn
}

// Whether what is read is the number, and its halves written again, as a span or each by itself, are its bytes.
fn is_same(x: u32, tape: [u8; 4]) -> bool {
    let mut spanned = [0u8; 4];
    Span::read(&tape, 0).encode(&mut spanned, 0);
    let mut halves = [0u8; 4];
    u16::read(&tape, 0).encode(&mut halves, 0);
    u16::read(&tape, 2).encode(&mut halves, 2);
    u32::read(&tape, 0) == x && spanned == tape && halves == tape
}

// All that have one byte set, all ones, and the random ones.
pub fn run() -> Tally {
    let numbers = ONE_BYTE + 1 + RANDOM;
    let mut differ: u32 = 0;
    let mut checksum = 0;
    let mut state = 1;
    for i in 0..numbers {
        state = next(state);
        let x = number_at(i, state);
        let mut tape = [0u8; 4];
        x.encode(&mut tape, 0);
        if !is_same(x, tape) {
            differ += 1;
        }
        checksum = tape.iter().fold(checksum, |sum, b| mixed(sum, *b));
    }
    Tally {
        numbers,
        differ,
        checksum,
    }
}
