// Runs the check of root tapes. First the vectors of standard input, a line for each: what it shows, the text, the tape in hexadecimal, the answer.
// Each line is written again with the answer that was found, so that what is written is what was read. Then cases that are made here: which
// commands may stand at which place, how many operand bytes each has, how deep elements and fragments nest, and how far values reach.
#![tactic(auto)]

mod cases;
mod listed;

use files::read_full;
use std::io;
use std::io::{Result, Write};

fn run(out: &mut impl Write, lines: &[u8]) -> Result<()> {
    listed::run(out, lines)?;
    cases::run(out)
}

fn main(rt: HostRuntime) {
    let mut lines = [0u8; 65536];
    let n = read_full(&mut rt.reader(), &mut lines);
    // a test whose output is not taken has failed by what is missing there
    let _ = run(&mut io::writer(&rt), &lines[..n]);
}
