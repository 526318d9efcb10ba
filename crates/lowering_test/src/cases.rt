// The vectors of standard input.
ghost use Rattle.std.specs.Prelude.{◌≤◌, length};

use crate::show::{show_answer, show_kept, show_left, show_records, show_targets};
use crate::states::replaced;
use definitions::state::State;
use files::read_full;
use lowering::lower_root;
use settings::opening::open_job;
use std::io;
use std::io::{Result, Write};
use vectors::lines::{Lines, after, before};
use vectors::values::{hex_bytes, value_of};

// The bytes that a field spells: in hexadecimal, or a star and how many zero bytes. What `out` holds at first is zero.
fn bytes_of(field: &[u8], out: &mut [u8]) -> usize
    ensures { result ≤ length out.new }
{
    match field {
        [b'*', count @ ..] => (value_of(count) as usize).min(out.len()),
        _ => hex_bytes(field, out),
    }
}

// How many bytes the longest target holds.
const ROOM: usize = 4096;

// A target's size, up to that of the buffers.
fn room_of(field: &[u8]) -> usize
    ensures { result ≤ 4096 }
{
    (value_of(field) as usize).min(ROOM)
}

// The fields of a line; one that is missing is empty.
#[derive(Clone, Copy)]
struct Case<'a> {
    name: &'a [u8],
    job: &'a [u8],
    text: &'a [u8],
    state: &'a [u8],
    calls: &'a [u8],
    notices: &'a [u8],
    records: &'a [u8],
    roots: [&'a [u8]; 2],
}

// The first field, and those behind it.
fn parted<'a>(line: &'a [u8]) -> (&'a [u8], &'a [u8]) {
    (before(line, b'|'), after(line, b'|'))
}

fn case_of<'a>(line: &'a [u8]) -> Case<'a> {
    let (name, left) = parted(line);
    let (job, left) = parted(left);
    let (text, left) = parted(left);
    let (state, left) = parted(left);
    let (calls, left) = parted(left);
    let (notices, left) = parted(left);
    let (records, left) = parted(left);
    let (one, two) = parted(left);
    Case {
        name,
        job,
        text,
        state,
        calls,
        notices,
        records,
        roots: [one, two],
    }
}

// Lowers the root that a field spells, if it spells one.
fn run_root(
    out: &mut impl Write,
    text: &[u8],
    state: State,
    field: &[u8],
    calls: &mut [u8],
    notices: &mut [u8],
) -> Result<State> {
    if field.is_empty() {
        return Ok(state);
    }
    let mut root = [0u8; 65536];
    let n = bytes_of(field, &mut root);
    let stepped = lower_root(text, state, &root[..n], calls, notices);
    show_answer(out, stepped.answer)?;
    show_kept(out, state, stepped.state)?;
    Ok(stepped.state)
}

// The roots in turn over the state of an opening, some of whose bytes may be replaced, then the targets and the records.
fn run_roots(
    out: &mut impl Write,
    case: Case,
    text: &[u8],
    opened: State,
    notices: &mut [u8],
) -> Result<()> {
    let mut state = replaced(out, opened, case.state)?;
    let mut space = [0xee; ROOM];
    let calls = &mut space[..room_of(case.calls)];
    for field in case.roots {
        state = run_root(out, text, state, field, calls, notices)?;
    }
    show_targets(out, state, calls, notices)?;
    let mut space = [0xee; ROOM];
    let records = &mut space[..room_of(case.records)];
    show_records(out, text, state, records)
}

// Opens the job over the text of a field. The roots are given the same, or the one behind `>`, and their notices go behind the opening's.
fn run_case(out: &mut impl Write, case: Case) -> Result<()> {
    out.write_all(case.name)?;
    write!(out, ":")?;
    let mut job = [0u8; 256];
    let n = hex_bytes(case.job, &mut job);
    let first = before(case.text, b'>');
    let mut text = [0u8; 65536];
    let size = bytes_of(first, &mut text);
    let mut space = [0xee; ROOM];
    let notices = &mut space[..room_of(case.notices)];
    let opened = open_job(&text[..size], &job[..n], notices);
    if opened.answer.is_err() {
        write!(out, " opening")?;
        show_answer(out, opened.answer)?;
        return show_left(out, notices);
    }
    if first.len() == case.text.len() {
        return run_roots(out, case, &text[..size], opened.state, notices);
    }
    let mut other = [0u8; 65536];
    let size = bytes_of(after(case.text, b'>'), &mut other);
    run_roots(out, case, &other[..size], opened.state, notices)
}

fn run_lines(out: &mut impl Write, input: &[u8]) -> Result<()> {
    for line in (Lines { left: input }) {
        run_case(out, case_of(line))?;
    }
    Ok(())
}

// The lines of standard input, one after the other.
pub fn run(rt: &(impl Input + Print)) -> Result<()> {
    let mut input = [0u8; 65536];
    let n = read_full(&mut rt.reader(), &mut input);
    run_lines(&mut io::writer(rt), &input[..n])
}
