// Runs the vectors of standard input through the crates `text` and `tape`. A vector is a line `OPERATION OPERANDS = EXPECTED   # origin`; what is
// computed from the operands has to be what stands behind the equals sign. Lines without one are passed. A line that differs is printed, with its
// number and what was computed. Then random texts and numbers, whose checksums expected.py computes by Python's own decoder and
// conversion.
#![tactic(auto)]

mod making;
mod numbers;
mod random;
mod tape_answers;
mod text_answers;

use files::read_full;
use numbers::Tally;
use random::Sums;
use std::io;
use std::io::{Read, Result, Write};
use vectors::answers::{Answer, MOST, named, same_values, values_of};
use vectors::lines::{Lines, after, before, next_word, word_count};
use vectors::values::{WORDS, hex_bytes, letters_of};

// The input's size has to be below this.
const SIZE: usize = 131072;

#[derive(Clone, Copy)]
enum Outcome {
    Passed,
    Same,
    Differs,
}

fn print_value(out: &mut impl Write, value: u64) -> Result<()> {
    if value < WORDS {
        return write!(out, " {value}");
    }
    let mut letters = [0u8; 12];
    let start = letters_of(value, &mut letters);
    out.write_all(b" ")?;
    out.write_all(&letters[start..])
}

// Those that were kept.
fn print_answer(out: &mut impl Write, a: Answer) -> Result<()> {
    for value in &a.v[..a.n.min(MOST)] {
        print_value(out, *value)?;
    }
    if MOST < a.n {
        return write!(out, " and more");
    }
    Ok(())
}

// The answer for what stands before the equals sign.
fn computed(input: &[u8]) -> Answer {
    let (operation, operands) = next_word(input).unwrap_or((b"", b""));
    if operation == b"refusal".as_slice() {
        return tape_answers::refusal(operands);
    }
    let mut bytes = [0u8; 256];
    let n = hex_bytes(operands, &mut bytes);
    // a slip of the pen must not become an empty operand
    if n != word_count(operands) {
        return named(b"malformed");
    }
    answer(operation, &bytes[..n])
}

fn answer(operation: &[u8], bytes: &[u8]) -> Answer {
    match operation {
        b"utf8" => text_answers::well_formed(bytes),
        b"char" => text_answers::character(bytes),
        b"class" => text_answers::class(bytes),
        b"bounds" => text_answers::bounds(bytes),
        b"part" => text_answers::part_bytes(bytes),
        b"find" => text_answers::find(bytes),
        b"over" => text_answers::over_ascii(bytes),
        b"word" => text_answers::fixed_word(bytes),
        _ => tape_answers::answer(operation, bytes),
    }
}

fn run_line(out: &mut impl Write, line: &[u8], number: usize) -> Result<Outcome> {
    let vector = before(line, b'#');
    let input = before(vector, b'=');
    if input.len() == vector.len() {
        return Ok(Outcome::Passed);
    }
    let got = computed(input);
    if same_values(got, values_of(after(vector, b'='))) {
        return Ok(Outcome::Same);
    }
    write!(out, "line {number}: ")?;
    out.write_all(line)?;
    out.write_all(b"\n    computed:")?;
    print_answer(out, got)?;
    out.write_all(b"\n")?;
    Ok(Outcome::Differs)
}

// The lines in turn: how many are vectors, and how many of those differ.
fn run_lines(out: &mut impl Write, s: &[u8]) -> Result<()> {
    let mut vectors: usize = 0;
    let mut differ: usize = 0;
    for (i, line) in (Lines { left: s }).enumerate() {
        match run_line(out, line, i + 1)? {
            Outcome::Passed => {}
            Outcome::Same => vectors += 1,
            Outcome::Differs => {
                vectors += 1;
                differ += 1;
            }
        }
    }
    writeln!(out, "{vectors} vectors, {differ} differ")
}

// The vectors, then texts and numbers by chance.
fn run(out: &mut impl Write, vectors: &[u8]) -> Result<()> {
    run_lines(out, vectors)?;
    let texts = 4096;
    let Sums {
        well_formed,
        checksum,
    } = random::run(texts);
    writeln!(
        out,
        "{texts} random texts, {well_formed} well-formed, checksum {checksum}"
    )?;
    let Tally {
        numbers,
        differ,
        checksum,
    } = numbers::run();
    writeln!(
        out,
        "{numbers} numbers, {differ} differ, checksum {checksum}"
    )
}

fn run_input(out: &mut impl Write, input: &mut impl Read, buffer: &mut [u8]) -> Result<()> {
    let n = read_full(input, buffer);
    if n == SIZE {
        return writeln!(out, "the input is too long");
    }
    run(out, &buffer[..n])
}

fn main(rt: HostRuntime) {
    let mut buffer = [0u8; SIZE];
    // a test whose output is not taken has failed by what is missing there
    let _ = run_input(&mut io::writer(&rt), &mut rt.reader(), &mut buffer);
}
