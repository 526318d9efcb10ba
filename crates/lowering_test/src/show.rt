// Lines of what is answered.
use crate::states::is_same;
use definitions::state::State;
use files::print_bytes;
use std::io;
use std::io::Write;
use store::module_imports::write_records;
use tape::refusal::Refusal;

// A space and two digits for each byte of the longest target.
const LINE: usize = 4096 * 3;

// All that a target holds.
fn show_whole(out: &mut impl Write, target: &[u8]) -> io::Result<()> {
    let mut line = [0u8; LINE];
    write!(out, ":")?;
    print_bytes(out, target, &mut line)
}

fn show_refusal(out: &mut impl Write, refusal: Refusal) -> io::Result<()> {
    let number = refusal.number();
    let figure = refusal.figure();
    write!(out, " refused {number} {figure}")
}

pub fn show_answer(out: &mut impl Write, answer: Result<(), Refusal>) -> io::Result<()> {
    match answer {
        Ok(()) => write!(out, " accepted"),
        Err(refusal) => show_refusal(out, refusal),
    }
}

// Whether a root moved the state.
pub fn show_kept(out: &mut impl Write, before: State, after: State) -> io::Result<()> {
    if is_same(before, after) {
        write!(out, ", state kept")
    } else {
        write!(out, ", state moved")
    }
}

// How far a target is filled, and all of it.
fn show_target(out: &mut impl Write, word: &str, fill: usize, target: &[u8]) -> io::Result<()> {
    write!(out, "; {word} {fill}")?;
    show_whole(out, target)
}

pub fn show_targets(
    out: &mut impl Write,
    state: State,
    calls: &[u8],
    notices: &[u8],
) -> io::Result<()> {
    show_target(out, "calls", state.calls, calls)?;
    show_target(out, "notices", state.notices, notices)
}

// The notices that a refused opening left, and the end of the line.
pub fn show_left(out: &mut impl Write, notices: &[u8]) -> io::Result<()> {
    write!(out, "; notices")?;
    show_whole(out, notices)?;
    writeln!(out)
}

// Writes the records and ends the line.
pub fn show_records(
    out: &mut impl Write,
    text: &[u8],
    state: State,
    target: &mut [u8],
) -> io::Result<()> {
    match write_records(text, state, target) {
        Ok(n) => show_target(out, "records", n, target)?,
        Err(refusal) => {
            write!(out, "; records")?;
            show_refusal(out, refusal)?;
            show_whole(out, target)?;
        }
    }
    writeln!(out)
}
