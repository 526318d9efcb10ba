// Reads job.bin, text.bin and roots.bin, a list of roots, each after its length as a u16, little-endian. Prints a line for each root, then the
// calls and the notices of all and the records; or, where the opening is refused, the refusal alone.
#![tactic(auto)]

mod series;

ghost use Rattle.jsxseries.specs.Running.{world_of, Fits};

use files::{CANNOT_WRITE, print_line, print_refusal, read_file};
use series::{ROOM, Series};
use settings::opening::open_job;
use std::io::{Result, Write};
use std::rt::Files;
use std::{fs, io};
use store::module_imports::write_records;

// The longest line has three bytes for each of a full target, its word and a line feed.
const LINE: usize = 3 * ROOM + 192;

// What the roots left: the fronts of the targets, and the records. A line that can't be written is the last.
fn print_left(out: &mut impl Write, left: &Series, line: &mut [u8]) -> Result<()>
    requires { Fits (world_of left.now) }
{
    print_line(out, b"calls", &left.calls[..left.state.calls], line)?;
    print_line(out, b"notices", &left.notices[..left.state.notices], line)?;
    let mut records = [0u8; ROOM];
    match write_records(left.text, left.state, &mut records) {
        Err(refusal) => print_refusal(out, refusal, line),
        Ok(n) => print_line(out, b"records", &records[..n], line),
    }
}

// A list that is missing has no roots: nothing can be read of it.
fn run_roots(rt: &(impl Files + Print), opened: &mut Series, line: &mut [u8]) -> Result<()>
    requires { Fits (world_of opened.old) }
{
    let mut out = io::writer(rt);
    match fs::open(rt, "roots.bin") {
        Ok(mut list) => opened.lower_all(&mut list, &mut out, line)?,
        Err(_) => opened.lower_all(&mut io::empty(), &mut out, line)?,
    }
    print_left(&mut out, opened, line)
}

fn run_job(rt: &(impl Files + Print), job: &[u8], text: &[u8]) -> Result<()> {
    let mut line = [0u8; LINE];
    let mut notices = [0u8; ROOM];
    let opened = open_job(text, job, &mut notices);
    match opened.answer {
        Err(refusal) => print_refusal(&mut io::writer(rt), refusal, &mut line),
        Ok(()) => {
            let mut series = Series {
                text,
                state: opened.state,
                calls: [0; ROOM],
                notices,
            };
            run_roots(rt, &mut series, &mut line)
        }
    }
}

fn run(rt: &(impl Files + Print)) -> Result<()> {
    let mut job = [0u8; ROOM];
    let mut text = [0u8; ROOM];
    let j = read_file(rt, b"job.bin", &mut job);
    let t = read_file(rt, b"text.bin", &mut text);
    run_job(rt, &job[..j], &text[..t])
}

fn main(rt: HostRuntime) {
    if run(&rt).is_err() {
        let _ = rt.eprintln(CANNOT_WRITE);
    }
}
