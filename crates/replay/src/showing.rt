// Words, numbers and lines of bytes.
use files::{print_byte, print_line};
use std::io::{Result, Write};
use tape::refusal::Refusal;

// Room for the longest line: three characters for each byte that a target can hold, behind a word.
pub const LINE: usize = 200_000;

// Two hexadecimal digits for each byte, with nothing between.
pub fn say_hex(out: &mut impl Write, bytes: &[u8]) -> Result<()> {
    for b in bytes {
        print_byte(out, *b)?;
    }
    Ok(())
}

// A word and bytes behind it, laid into the lent line first, so that they are one write.
pub fn say_line(out: &mut impl Write, word: &str, bytes: &[u8], line: &mut [u8]) -> Result<()> {
    print_line(out, word.as_bytes(), bytes, line)
}

// What stands behind `opening`, `root N` or `records`.
pub fn say_refused(out: &mut impl Write, why: Refusal) -> Result<()> {
    let number = why.number();
    let figure = why.figure();
    writeln!(out, " refused {number} {figure}")
}
