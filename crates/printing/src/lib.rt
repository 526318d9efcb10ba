// Lines of hexadecimal bytes, laid out in a lent target.
#![tactic(auto)]

ghost use Rattle.std.specs.Prelude.{◌≡◌, [], ◌∷◌, ◌++◌, ◌+◌, ◌/◌, ◌%◌, ◌≤◌, ◌<◌, ◌^◌, length};
ghost use Rattle.tape.specs.Targets.{Wrote};
ghost use Rattle.printing.specs.Lines.{hex_digit, hex_of, hex_bytes, line_of};

use tape::target::Encode;

// kept: lines are laid into lent memory, where it is too short too, and their contract says what it then holds; `{:02x}` needs a writer.
// Ten before `a`, the digit of ten.
const LETTERS: u8 = b'a' - 10;

fn digit(n: u8) -> u8
    requires { n < 16 }
    ensures { result ≡ hex_digit n }
{
    if n < 10 {
        return b'0' + n;
    }
    LETTERS + n
}

// A space and the two digits of a byte.
fn put_byte(out: &mut [u8], at: usize, b: u8) -> usize
    ensures { Wrote out.old out.new at result (hex_of b) }
{
    [b' ', digit(b / 16), digit(b % 16)].encode(out, at)
}

// The same for each of the bytes.
pub fn put_bytes(bytes: &[u8], out: &mut [u8], at: usize) -> usize
    requires { at ≤ 2 ^ 63 }
    ensures { Wrote out.old out.new at result (hex_bytes bytes.now) }
{
    let mut next = at;
    for b in bytes {
        next = put_byte(out, next, *b);
    }
    next
}

// A word, its bytes and a line feed. The answer tells how long the line is; it is whole where the target has room for it.
pub fn put_line(word: &[u8], bytes: &[u8], out: &mut [u8]) -> usize
    ensures { Wrote out.old out.new 0 result (line_of word.now bytes.now) }
{
    let worded = word.encode(out, 0);
    let filled = put_bytes(bytes, out, worded);
    b'\n'.encode(out, filled)
}
