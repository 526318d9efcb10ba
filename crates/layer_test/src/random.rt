// Random texts, many of them nearly UTF-8, and a checksum of where each stops being it. expected.py draws the same ones.
ghost use Rattle.std.specs.Prelude.{◌≡◌, ◌/◌, ◌%◌, ◌^◌, length};
ghost use Rattle.layer_test.specs.Random.{next_of, drawn, mixed};

use text::utf8::first_ill_formed;

#[derive(Clone, Copy)]
pub struct Sums {
    pub well_formed: u32,
    pub checksum: u32,
}

// A byte, and how many should follow it to end its character.
#[derive(Clone, Copy)]
struct Piece {
    byte: u8,
    left: u8,
}

// A linear congruential generator; of its draws, texts use the upper half.
pub fn next(state: u32) -> u32
    ensures { result ≡ next_of state }
{
    state.wrapping_mul(1664525).wrapping_add(1013904223)
}

// A checksum with one more value.
pub fn mixed(sum: u32, value: u8) -> u32
    ensures { result ≡ mixed sum value }
{
    sum.wrapping_mul(31).wrapping_add(u32::from(value))
}

// What follows where `left` bytes should continue a character, which one draw in 32 breaks off. `plain` makes long runs of ASCII.
fn chosen(draw: u32, left: u8, plain: bool) -> Piece {
    let low = (draw / 32 % 64) as u8;
    if 0 < draw % 32 {
        if 0 < left {
            return Piece {
                byte: 0x80 + low,
                left: left - 1,
            };
        }
        if plain {
            return Piece {
                byte: 0x20 + low,
                left: 0,
            };
        }
    }
    let (byte, left) = match draw / 2048 % 32 {
        0..=9 => (0x40 + low, 0),
        10..=17 => (0xc0 + low % 32, 1),
        18..=27 => (0xe0 + low % 16, 2),
        28..=30 => (0xf0 + low % 8, 3),
        _ => (0x80 + low, 0),
    };
    Piece { byte, left }
}

// Fills a text, and answers the generator's state after it.
fn fill(out: &mut [u8], start: u32, plain: bool) -> u32
    ensures { result ≡ drawn (length out.old) start }
{
    let mut state = start;
    let mut left = 0;
    for byte in out.iter_mut() {
        state = next(state);
        let piece = chosen(state / 65536, left, plain);
        *byte = piece.byte;
        left = piece.left;
    }
    state
}

// Draws a text of up to 127 bytes, one in four of them plain: the generator's state after it, and where it is ill-formed.
fn text_from(state: u32) -> (u32, Option<usize>)
    ensures { result.0 ≡ drawn (next_of state / 65536 % 128) (next_of state) }
{
    let mut space = [0u8; 128];
    let first = next(state);
    let length = (first / 65536 % 128) as usize;
    let plain = first / 8388608 % 4 == 0;
    let text = &mut space[..length];
    let after = fill(text, first, plain);
    (after, first_ill_formed(text))
}

// A text counts one more than the place where it is ill-formed, and nothing where it is well-formed.
pub fn run(texts: u32) -> Sums {
    let mut state = 1;
    let mut well_formed: u32 = 0;
    let mut checksum = 0;
    for _ in 0..texts {
        let (after, ill) = text_from(state);
        state = after;
        match ill {
            Some(place) => checksum = mixed(checksum, ((place % 256) as u8).wrapping_add(1)),
            None => {
                well_formed += 1;
                checksum = mixed(checksum, 0);
            }
        }
    }
    Sums {
        well_formed,
        checksum,
    }
}
