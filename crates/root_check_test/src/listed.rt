// Vectors, one to a line: NAME|TEXT|TAPE|ANSWER.
ghost use Rattle.std.specs.Prelude.{◌≤◌, ◌<◌, length, IfSome};

use root_check::check::{TapeError, check_root};
use std::io;
use std::io::Write;

// `good`, or a refusal's number and figure (docs/TAPES.md, "Refusals").
pub fn show(out: &mut impl Write, answer: Result<(), TapeError>) -> io::Result<()> {
    match answer {
        Ok(()) => out.write_all(b"good"),
        Err(error) => {
            let number = error.fault.number();
            let place = error.place;
            write!(out, "{number} {place}")
        }
    }
}

// What a hexadecimal digit stands for. The letters are those in lower case.
fn digit(b: u8) -> Option<u8>
    ensures { IfSome result (λ n. n < 16) }
{
    match b {
        b'0'..=b'9' => Some(b - b'0'),
        b'a'..=b'f' => Some(b - b'a' + 10),
        _ => None,
    }
}

// Lays the bytes that pairs of digits spell into the tape, and says how many there are. Other characters part them, within a pair too.
fn read_hex(hex: &[u8], tape: &mut [u8]) -> usize
    ensures { result ≤ length tape.new }
{
    let mut n = 0;
    let mut held = None;
    for low in hex.iter().filter_map(|b| digit(*b)) {
        let Some(high) = held else {
            held = Some(low);
            continue;
        };
        if tape.len() <= n {
            break;
        }
        tape[n] = high << 4 | low;
        n += 1;
        held = None;
    }
    n
}

// A field without the mark that ends it. One that the line ends is without its last byte.
fn unmarked<'a>(field: &'a [u8]) -> &'a [u8] {
    match field {
        [bytes @ .., _] => bytes,
        [] => field,
    }
}

// Writes the line again, with the answer that is found.
fn vector(out: &mut impl Write, line: &[u8]) -> io::Result<()> {
    let mut fields = line.split_inclusive(|b| *b == b'|');
    let name = fields.next().unwrap_or(b"");
    let text = fields.next().unwrap_or(b"");
    let tape = fields.next().unwrap_or(b"");
    let mut space = [0u8; 4096];
    let n = read_hex(unmarked(tape), &mut space);
    out.write_all(name)?;
    out.write_all(text)?;
    out.write_all(tape)?;
    show(out, check_root(unmarked(text), &space[..n]))?;
    out.write_all(b"\n")
}

// The vectors in turn, each up to its line feed. What stands behind the last one is none.
pub fn run(out: &mut impl Write, lines: &[u8]) -> io::Result<()> {
    for line in lines.split_inclusive(|b| *b == b'\n') {
        if let [bytes @ .., b'\n'] = line {
            vector(out, bytes)?;
        }
    }
    Ok(())
}
