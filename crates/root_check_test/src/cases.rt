// Cases that are made by rule, over the text `a`.
ghost use Rattle.std.specs.Prelude.{◌≤◌, length};

use crate::listed::show;
use root_check::check::{TapeError, check_root};
use root_check::skip::{skip_properties, skip_value};
use std::io;
use std::io::Write;
use tape::target::Encode;

// ---- tapes

// Lays bytes into the tape from `at` on so many times, as far as there is room, and says where they end.
fn repeat(tape: &mut [u8], at: usize, bytes: &[u8], times: usize) -> usize
    ensures { result ≤ length tape.new }
{
    let mut end = at;
    for _ in 0..times {
        end = bytes.encode(tape, end);
    }
    end.min(tape.len())
}

// The answer to the first n bytes.
fn check_first(tape: &[u8], n: usize) -> Result<(), TapeError> {
    check_root(b"a", &tape[..n.min(tape.len())])
}

// ---- commands at a place

// Whether 3 was answered with this place.
fn is_grammar_at(answer: Result<(), TapeError>, place: usize) -> bool {
    match answer {
        Ok(()) => false,
        Err(error) => error.fault.number() == 3 && error.place == place,
    }
}

// Of all codes those that may stand behind `front`: there 3 speaks of the tape's end, and not of the code.
fn may_stand(out: &mut impl Write, name: &str, front: &[u8]) -> io::Result<()> {
    write!(out, "{name}")?;
    let mut tape = [0u8; 4096];
    let n = front.encode(&mut tape, 0);
    for code in 0..=u8::MAX {
        let end = code.encode(&mut tape, n);
        if !is_grammar_at(check_first(&tape, end), n) {
            write!(out, " {code:02x}")?;
        }
    }
    writeln!(out)
}

// Behind `front` a code and more and more bytes FF: after how many of them 3 no longer speaks of the tape's end, and what is answered then.
fn operands(out: &mut impl Write, front: &[u8], code: u8) -> io::Result<()> {
    let mut tape = [0u8; 4096];
    let n = front.encode(&mut tape, 0);
    let mut end = code.encode(&mut tape, n);
    for count in 0..16 {
        let answer = check_first(&tape, end);
        if !is_grammar_at(answer, end) {
            write!(out, "  {code:02x} +{count} ")?;
            show(out, answer)?;
            return writeln!(out);
        }
        end = 0xff_u8.encode(&mut tape, end);
    }
    Ok(())
}

// The commands that may stand behind `front`, and the operands of each.
fn place(out: &mut impl Write, name: &str, front: &[u8], codes: &[u8]) -> io::Result<()> {
    may_stand(out, name, front)?;
    for code in codes {
        operands(out, front, *code)?;
    }
    Ok(())
}

fn places(out: &mut impl Write) -> io::Result<()> {
    place(out, "the tape begins:", b"", b"\x01")?;
    place(out, "behind the heritage:", b"\x01\0", b"\x02")?;
    place(out, "behind a block:", b"\x01\0\x02\0", b"\x02")?;
    place(
        out,
        "behind a function:",
        b"\x01\0\x02\x03",
        b"\x02\x10\x11",
    )?;
    place(
        out,
        "name:",
        b"\x01\0\x02\x03\x10\0\0\0\0\0\0\0\0",
        b"\x20\x21\x22\x23",
    )?;
    place(
        out,
        "behind a string:",
        b"\x01\0\x02\x03\x10\0\0\0\0\0\0\0\0\x20\0\0\x01\0",
        b"\x1e\x30\x31\x32\x33",
    )?;
    place(
        out,
        "behind an identifier:",
        b"\x01\0\x02\x03\x10\0\0\0\0\0\0\0\0\x21\0\0\x01\0",
        b"\x25",
    )?;
    place(
        out,
        "behind this:",
        b"\x01\0\x02\x03\x10\0\0\0\0\0\0\0\0\x22",
        b"\x25",
    )?;
    place(
        out,
        "behind a namespaced name:",
        b"\x01\0\x02\x03\x10\0\0\0\0\0\0\0\0\x23\0\0\x01\0\0\0\x01\0",
        b"",
    )?;
    place(
        out,
        "value:",
        b"\x01\0\x02\x03\x10\0\0\0\0\0\0\0\0\x22\x30\0\0\x01\0",
        b"\x10\x11\x40\x41\x42\x43",
    )?;
    place(
        out,
        "behind a value:",
        b"\x01\0\x02\x03\x10\0\0\0\0\0\0\0\0\x22\x30\0\0\x01\0\x40",
        b"",
    )?;
    place(
        out,
        "property:",
        b"\x01\0\x02\x03\x10\0\0\0\0\0\0\0\0\x22\x33\0\0",
        b"\x34\x35\x36",
    )?;
    place(
        out,
        "child of an element:",
        b"\x01\0\x02\x03\x10\0\0\0\0\0\0\0\0\x22\x1e",
        b"\x10\x11\x1f\x42\x43\x50\x51",
    )?;
    place(
        out,
        "child of a fragment:",
        b"\x01\0\x02\x03\x11\0\0\0\0\0\0\0\0",
        b"\x1f",
    )?;
    place(
        out,
        "behind the root:",
        b"\x01\0\x02\x03\x11\0\0\0\0\0\0\0\0\x1f",
        b"",
    )
}

// ---- levels

// A root that opens so many times, with something inside, and closes as often.
fn nest(
    out: &mut impl Write,
    name: &str,
    open: &[u8],
    times: usize,
    inside: &[u8],
    close: &[u8],
) -> io::Result<()> {
    let mut tape = [0u8; 4096];
    let front = b"\x01\0\x02\x03".encode(&mut tape, 0);
    let opened = repeat(&mut tape, front, open, times);
    let filled = inside.encode(&mut tape, opened);
    let end = repeat(&mut tape, filled, close, times);
    write!(out, "{name} ")?;
    show(out, check_first(&tape, end))?;
    writeln!(out)
}

fn levels(out: &mut impl Write) -> io::Result<()> {
    let child = b"\x11\0\0\0\0\0\0\0\0";
    let attribute = b"\x10\0\0\0\0\0\0\0\0\x22\x30\0\0\x01\0";
    let last = b"\x11\xff\xff\xff\xff\xff\xff\xff\xff\x1f";
    nest(out, "64 children:", child, 64, b"", b"\x1f")?;
    nest(out, "65 children:", child, 65, b"", b"\x1f")?;
    nest(out, "64 attributes:", attribute, 64, b"\x40", b"\x1e\x1f")?;
    nest(out, "65 attributes:", attribute, 65, b"\x40", b"\x1e\x1f")?;
    nest(out, "64th at the last line:", child, 63, last, b"\x1f")?;
    nest(out, "65th at the last line:", child, 64, last, b"\x1f")?;
    nest(out, "65th cut off:", child, 64, b"\x11\0\0", b"")
}

// ---- how far values and properties reach

fn reach(out: &mut impl Write, name: &str, size: usize) -> io::Result<()> {
    writeln!(out, "{name} {size}")
}

fn reaches(out: &mut impl Write) -> io::Result<()> {
    reach(out, "no value:", skip_value(b"\x40\x1e\x1f"))?;
    reach(out, "string:", skip_value(b"\x41\0\0\x01\0\x1e\x1f"))?;
    reach(out, "expression:", skip_value(b"\x42\0\0\x1e\x1f"))?;
    reach(out, "empty container:", skip_value(b"\x43\x1e\x1f"))?;
    reach(
        out,
        "fragment:",
        skip_value(b"\x11\0\0\0\0\0\0\0\0\x1f\x1e\x1f"),
    )?;
    reach(
        out,
        "element with all:",
        skip_value(
            b"\x10\0\0\0\0\0\0\0\0\x21\0\0\x01\0\x25\0\0\x01\0\x30\0\0\x01\0\x11\0\0\0\0\0\0\0\0\x1f\x31\0\0\x01\0\0\0\x01\0\x43\x32\0\0\x33\0\0\x34\0\0\x36\0\0\0\0\0\0\x35\x1e\x50\0\0\x01\0\x42\0\0\x43\x51\0\0\x10\0\0\0\0\0\0\0\0\x20\0\0\x01\0\x1e\x1f\x1f\x1e\x1f",
        ),
    )?;
    reach(out, "no properties:", skip_properties(b"\x35\x1e\x1f"))?;
    reach(
        out,
        "two properties:",
        skip_properties(b"\x34\0\0\x36\0\0\0\0\0\0\x35\x1e\x1f"),
    )
}

pub fn run(out: &mut impl Write) -> io::Result<()> {
    places(out)?;
    levels(out)?;
    reaches(out)
}
