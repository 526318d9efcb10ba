// Reads texts, each ended by a byte 0, and writes a line for each: whether it is a child, how many bytes it becomes on the call tape
// (counted with a target of one byte), and these bytes.
#![tactic(auto)]

ghost use Rattle.std.specs.Prelude.{◌≤◌, length};

use files::{CANNOT_WRITE, print_bytes, read_full};
use jsx_text::fixup_whitespace_and_decode_entities;
use std::io;
use std::io::Write;
use text::spans::{Span, part};
use text::utf8::first_ill_formed;

// A space and two digits for each byte of the longest call tape that is shown.
const LINE: usize = 512 * 3;

fn show(out: &mut impl Write, text: &[u8], span: Span) -> io::Result<()>
    requires { length text.now ≤ 65535 }
{
    let None = first_ill_formed(part(text, span)) else {
        return out.write_all(b"ill-formed\n");
    };
    let mut one = [0u8; 1];
    let counted = fixup_whitespace_and_decode_entities(text, span, &mut one, 0);
    let mut calls = [0u8; 512];
    let texted = fixup_whitespace_and_decode_entities(text, span, &mut calls, 0);
    let child = if texted.survives { "child" } else { "no child" };
    let size = counted.at;
    write!(out, "{child} {size}")?;
    if let Some(front) = calls.get(..texted.at) {
        let mut line = [0u8; LINE];
        print_bytes(out, front, &mut line)?;
    }
    out.write_all(b"\n")
}

// The texts in turn, each up to its byte 0.
fn show_each(out: &mut impl Write, texts: &[u8]) -> io::Result<()>
    requires { length texts.now ≤ 65536 }
{
    // kept: a span is where a text starts in all of them, so that its place is counted
    let mut from = 0;
    for (i, b) in texts.iter().enumerate() {
        if *b == 0 {
            let span = Span {
                start: from as u16,
                len: (i - from) as u16,
            };
            show(out, &texts[..i], span)?;
            from = i + 1;
        }
    }
    Ok(())
}

// The front of the buffer that standard input fills.
fn run(rt: &(impl Input + Print), buffer: &mut [u8]) -> io::Result<()>
    requires { length buffer.old ≤ 65536 }
{
    let n = read_full(&mut rt.reader(), buffer);
    show_each(&mut io::writer(rt), &buffer[..n])
}

fn main(rt: HostRuntime) {
    let mut buffer = [0u8; 65536];
    if run(&rt, &mut buffer).is_err() {
        let _ = rt.eprintln(CANNOT_WRITE);
    }
}
