// Replays cases of openings, roots and records. Standard input holds them as tests/rust/generate.py writes them: for each case the job, the
// text, the number of roots, and the roots; every length and the number are four bytes, the lowest first. What comes out of each is written in
// the lines that tests/rust/README.md describes.
//
// The file `stdin` is a list that tests/rust/sample.py chose from a large one, so that every command and setting is there, and every refusal that a
// series can come to. The file `stdout` is not what this program wrote: settings, calls, notices and records in it are the Rust's, as it answered when
// the list was made; the notices of openings, which the Rust has none of, and the numbers and figures of refusals are those of a reading of the specification in Python.
#![tactic(auto)]

mod openings;
mod reading;
mod showing;

use definitions::state::{State, Stepped};
use files::CANNOT_WRITE;
use lowering::lower_root;
use openings::show_settings;
use reading::{ROOM, read_number, read_part};
use settings::opening::open_job;
use showing::{LINE, say_line, say_refused};
use std::io;
use std::io::{Read, Result, Write};
use store::module_imports::write_records;

// The calls and notices of a root are what has come to their targets with it.
fn show_part(
    out: &mut impl Write,
    word: &str,
    target: &[u8],
    from: usize,
    to: usize,
    line: &mut [u8],
) -> Result<()> {
    match target.get(from..to) {
        Some(part) => say_line(out, word, part, line),
        None => writeln!(out, "no part of the target"),
    }
}

fn show_records(out: &mut impl Write, text: &[u8], state: State, line: &mut [u8]) -> Result<()> {
    let mut target = [0u8; 4096];
    match write_records(text, state, &mut target) {
        Err(why) => {
            write!(out, "records")?;
            say_refused(out, why)
        }
        Ok(size) => show_part(out, "records", &target, 0, size, line),
    }
}

// What the opening told, where it told something.
fn show_told(out: &mut impl Write, notices: &[u8], fill: usize, line: &mut [u8]) -> Result<()> {
    if 0 < fill {
        show_part(out, "notices", notices, 0, fill, line)?;
    }
    Ok(())
}

// What the parts of a case are read into, one case after the other: its text, and first the job's tape, then the roots'.
#[derive(Drop)]
struct Parts {
    text: [u8; ROOM],
    tape: [u8; ROOM],
}

// What cases are read from, where they are shown, by way of a line, and the targets that they are lowered into. That for notices is so small that it comes to be
// full.
// kept: programs take no memory from a heap, so that the targets are fixed arrays.
#[derive(Drop)]
struct Replay<R, W> {
    input: R,
    out: W,
    calls: [u8; 65536],
    notices: [u8; 1024],
    line: [u8; LINE],
}

impl<R: Read, W: Write> Replay<R, W> {
    fn root(&mut self, number: usize, text: &[u8], before: State, root: &[u8]) -> Result<State> {
        let stepped = lower_root(text, before, root, &mut self.calls, &mut self.notices);
        let after = stepped.state;
        write!(self.out, "root {number}")?;
        match stepped.answer {
            Err(why) => say_refused(&mut self.out, why)?,
            Ok(()) => {
                let out = &mut self.out;
                let line = &mut self.line;
                writeln!(out, " accepted")?;
                show_part(out, "calls", &self.calls, before.calls, after.calls, line)?;
                show_part(
                    out,
                    "notices",
                    &self.notices,
                    before.notices,
                    after.notices,
                    line,
                )?;
            }
        }
        Ok(after)
    }

    // The roots in turn, each with the state that the one before it left, over the same targets.
    fn roots(
        &mut self,
        text: &[u8],
        opened: State,
        count: usize,
        tape: &mut [u8],
    ) -> Result<State> {
        let mut state = opened;
        for number in 0..count {
            let Some(root) = read_part(&mut self.input, tape) else {
                writeln!(self.out, "cut short")?;
                return Ok(state);
            };
            state = self.root(number, text, state, root)?;
        }
        Ok(state)
    }

    // Passes over the roots of a job that was not opened.
    fn pass(&mut self, count: usize, tape: &mut [u8]) {
        for _ in 0..count {
            if read_part(&mut self.input, tape).is_none() {
                return;
            }
        }
    }

    fn job(&mut self, opened: Stepped, text: &[u8], count: usize, tape: &mut [u8]) -> Result<()> {
        let state = opened.state;
        write!(self.out, "opening")?;
        match opened.answer {
            Err(why) => {
                say_refused(&mut self.out, why)?;
                self.pass(count, tape);
                Ok(())
            }
            Ok(()) => {
                show_settings(&mut self.out, text, state.settings)?;
                show_told(&mut self.out, &self.notices, state.notices, &mut self.line)?;
                let last = self.roots(text, state, count, tape)?;
                show_records(&mut self.out, text, last, &mut self.line)
            }
        }
    }

    // Whether there was a case. One whose number of roots is cut off has none.
    fn case(&mut self, number: u32, parts: &mut Parts) -> Result<bool> {
        let Some(job) = read_part(&mut self.input, &mut parts.tape) else {
            return Ok(false);
        };
        let Some(text) = read_part(&mut self.input, &mut parts.text) else {
            return Ok(false);
        };
        let count = read_number(&mut self.input).unwrap_or(0);
        writeln!(self.out, "case {number}")?;
        let opened = open_job(text, job, &mut self.notices);
        self.job(opened, text, count, &mut parts.tape)?;
        Ok(true)
    }

    fn cases(&mut self) -> Result<()> {
        let mut parts = Parts {
            text: [0; ROOM],
            tape: [0; ROOM],
        };
        for number in 0..u32::MAX {
            if !self.case(number, &mut parts)? {
                return Ok(());
            }
        }
        Ok(())
    }
}

// Where a line can't be written, standard error is told, and nothing more is written.
fn main(rt: HostRuntime) {
    let mut replay = Replay {
        input: rt.reader(),
        out: io::writer(&rt),
        calls: [0; 65536],
        notices: [0; 1024],
        line: [0; LINE],
    };
    if replay.cases().is_err() {
        let _ = rt.eprintln(CANNOT_WRITE);
    }
}
