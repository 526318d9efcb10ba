// Files and standard input read whole, and lines printed: the input and output that the programs share.
#![tactic(auto)]

ghost use Rattle.std.specs.Prelude.{◌≡◌, ◌≤◌, ◌^◌, ◌<◌, [], ◌∷◌, length, take, decimal, is_ok, IsErr, OnOk};
ghost use Rattle.std.specs.Io.KnownBytes.{Appends, Consumes};
ghost use Rattle.printing.specs.Lines.{hex_bytes, line_of};
ghost use Rattle.tape.specs.Targets.{Wrote};
ghost use Rattle.files.specs.Fronts.{IsPrefixLen};
ghost use Rattle.files.specs.Refusals.{refusal_line};
ghost use Rattle.files.specs.Lines.{Prints, hex_pair};

use printing::{put_bytes, put_line};
use std::fs;
use std::io::{Error, ErrorKind, Read, Result, Write};
use std::rt::Files;
use tape::refusal::Refusal;
use tape::target::Encode;

// Reads until the buffer is full, the input ends or a read fails, and tells how many bytes came. They stand at the start of the buffer.
pub fn read_full<R: Read>(reader: &mut R, buf: &mut [u8]) -> usize
    ensures front { IsPrefixLen result buf.new }
    ensures bytes { Consumes (R.remaining reader.old) (R.remaining reader.new) (take result buf.new) }
{
    let mut done = 0;
    // kept: the library's `read_exact` tells nothing of what came before the input ended.
    while done < buf.len() {
        let Ok(n) = reader.read(&mut buf[done..]) else {
            break;
        };
        if n == 0 {
            break;
        }
        done += n;
    }
    done
}

// The file's bytes at the start of the buffer, as far as it has room, and how many they are. A file that is missing has none, and a name that is not UTF-8 is no
// file's here.
pub fn read_file<R: Files>(rt: &R, name: &[u8], buf: &mut [u8]) -> usize
    ensures { IsPrefixLen result buf.new }
{
    let Ok(path) = str::from_utf8(name) else {
        return 0;
    };
    match fs::open(rt, path) {
        Ok(mut file) => read_full(&mut file, buf),
        Err(_) => 0,
    }
}

// What a program says on standard error where standard output takes nothing.
pub const CANNOT_WRITE: &str = "cannot write: standard output";

// Hands the first n bytes of the line to the writer; where there are fewer, nothing.
fn write_front<W: Write>(out: &mut W, line: &[u8], n: usize) -> Result<()>
    ensures unfit { length line.now < n → IsErr result }
    ensures written { OnOk result (Appends (W.contents out.old) (W.contents out.new) (take n line.now)) }
{
    if line.len() < n {
        return Err(Error::new(ErrorKind::InvalidInput, "longer than the lent line"));
    }
    out.write_all(&line[..n])
}

// Prints a word and its bytes by way of the lent line. A line that is longer than the lent one is not printed.
pub fn print_line<W: Write>(out: &mut W, word: &[u8], bytes: &[u8], line: &mut [u8]) -> Result<()>
    ensures laid { Prints (line_of word.now bytes.now) line.old line.new (is_ok result) }
    ensures written { OnOk result (Appends (W.contents out.old) (W.contents out.new) (line_of word.now bytes.now)) }
{
    let n = put_line(word, bytes, line);
    write_front(out, line, n)
}

// Prints a space and two digits for each byte, in the same way.
pub fn print_bytes<W: Write>(out: &mut W, bytes: &[u8], line: &mut [u8]) -> Result<()>
    ensures laid { Prints (hex_bytes bytes.now) line.old line.new (is_ok result) }
    ensures written { OnOk result (Appends (W.contents out.old) (W.contents out.new) (hex_bytes bytes.now)) }
{
    let n = put_bytes(bytes, line, 0);
    write_front(out, line, n)
}

// Prints the two digits of a byte.
pub fn print_byte<W: Write>(out: &mut W, b: u8) -> Result<()>
    ensures { OnOk result (Appends (W.contents out.old) (W.contents out.new) (hex_pair b)) }
{
    let mut digits = [0u8; 3];
    put_bytes(&[b], &mut digits, 0);
    out.write_all(&digits[1..])
}

// Prints a number in decimal.
pub fn print_decimal<W: Write>(out: &mut W, n: usize) -> Result<()>
    ensures { OnOk result (Appends (W.contents out.old) (W.contents out.new) (decimal n)) }
{
    write!(out, "{n}")
}

// A number in decimal, with no zero in front.
// kept: `write!` into a lent slice tells nothing of what it then holds.
fn put_decimal(n: usize, out: &mut [u8], at: usize) -> usize
    ensures { Wrote out.old out.new at result (decimal n) }
{
    if n < 10 {
        return (b'0' + n as u8).encode(out, at);
    }
    let next = put_decimal(n / 10, out, at);
    (b'0' + (n % 10) as u8).encode(out, next)
}

fn put_refusal(refusal: Refusal, out: &mut [u8]) -> usize
    ensures { Wrote out.old out.new 0 result (refusal_line refusal) }
{
    let worded = b"refused ".encode(out, 0);
    let numbered = put_decimal(usize::from(refusal.number()), out, worded);
    let parted = b' '.encode(out, numbered);
    let figured = put_decimal(refusal.figure(), out, parted);
    b'\n'.encode(out, figured)
}

// Prints a refusal's number and figure, in the same way.
pub fn print_refusal<W: Write>(out: &mut W, refusal: Refusal, line: &mut [u8]) -> Result<()>
    ensures laid { Prints (refusal_line refusal) line.old line.new (is_ok result) }
    ensures written { OnOk result (Appends (W.contents out.old) (W.contents out.new) (refusal_line refusal)) }
{
    let n = put_refusal(refusal, line);
    write_front(out, line, n)
}
