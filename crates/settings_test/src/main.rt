// Opens the jobs of standard input, one to a line, and writes each with its settings in words. A line is four hexadecimal digits, the flags,
// and then any number of
//
//     pragma "h"    fragment "f"    importSource "preact"    comment " @jsx h"
//
// which are the tape's commands, in this order; the first letter of a word says which one. In quotes stand bytes and the escapes
// \n \r \t \v \f \" \\ and \xHH. `room 4` at the end is the size of the notice target, one hexadecimal digit. A line that begins with a number sign says
// where the jobs behind it come from. Behind them come jobs that are made by rule: long comments, and every pragma of up to four parts.
#![tactic(auto)]

ghost use Rattle.std.specs.Prelude.{◌≤◌, ◌<◌, length, IfSome};

use commands::codes;
use definitions::options::{Flags, Form, Mode, PragmaRoot, Settings};
use files::read_full;
use settings::opening::open_job;
use std::io;
use std::io::{Result, Write};
use tape::target::Encode;
use text::spans::{Span, part};

// ---- reading

// What a hexadecimal digit counts; any other byte counts nothing.
fn digit(b: u8) -> u8
    ensures { result < 16 }
{
    match b {
        b'0'..=b'9' => b - b'0',
        b'a'..=b'f' => b - b'a' + 10,
        _ => 0,
    }
}

// The byte of two hexadecimal digits.
fn byte_of(high: u8, low: u8) -> u8 {
    digit(high) * 16 + digit(low)
}

// The byte that an escape stands for, by the letter behind the backslash.
fn escaped(letter: u8) -> u8 {
    match letter {
        b'n' => b'\n',
        b'r' => b'\r',
        b't' => b'\t',
        b'v' => 0x0b,
        b'f' => 0x0c,
        _ => letter,
    }
}

// The first byte that is meant in a part in quotes, and what stands behind it; none at the end of the part. A backslash at the end of the line means none, and
// `\x` with fewer than two digits behind it is byte 0 and the last.
fn unquoted<'a>(line: &'a [u8]) -> Option<(u8, &'a [u8])>
    ensures { IfSome result (λ p. length p.1.now < length line.now) }
{
    match line {
        [] | [b'"', ..] | [b'\\'] => None,
        [b'\\', b'x', high, low, behind @ ..] => Some((byte_of(*high, *low), behind)),
        [b'\\', b'x', ..] => Some((0, &line[line.len()..])),
        [b'\\', letter, behind @ ..] => Some((escaped(*letter), behind)),
        [b, behind @ ..] => Some((*b, behind)),
    }
}

// The size of the notice target, which the end of a line may say: room for all that an opening tells where it doesn't.
fn room_of(line: &[u8]) -> usize
    ensures { result ≤ 16 }
{
    match line {
        [.., b' ', last] if *last != b'"' => usize::from(digit(*last)),
        _ => 16,
    }
}

// The byte for the first letter of a command's word.
// kept: the 0 for any other letter is put on the tape, where it is the wrong command that the job is refused for.
fn command_of(letter: Option<u8>) -> u8 {
    match letter {
        Some(b'c') => codes::COMMENT,
        Some(b'p') => codes::PRAGMA,
        Some(b'f') => codes::PRAGMA_FRAG,
        Some(b'i') => codes::IMPORT_SOURCE,
        _ => 0,
    }
}

// A job that is put together: its text and its tape, and how far each is filled, or would be if it had the room.
// kept: programs take no memory from a heap, so that both are fixed arrays with their fills beside.
#[derive(Drop)]
struct Draft {
    text: [u8; 65536],
    text_end: usize,
    tape: [u8; 4096],
    tape_end: usize,
}

impl Draft {
    // A job with these flags over an empty text, in place of the one before.
    fn begin(&mut self, flags: u16) {
        self.text_end = 0;
        let next = codes::FLAGS.encode(&mut self.tape, 0);
        self.tape_end = flags.encode(&mut self.tape, next);
    }

    fn write(&mut self, bytes: &[u8]) {
        self.text_end = bytes.encode(&mut self.text, self.text_end);
    }

    // Writes what stands in quotes, of which the first is passed, and tells what stands behind the last.
    fn write_quoted<'a>(&mut self, line: &'a [u8]) -> &'a [u8]
        ensures { length result.now ≤ length line.now }
    {
        let mut left = line;
        while let Some((b, behind)) = unquoted(left) {
            self.write(&[b]);
            left = behind;
        }
        match left {
            [_, behind @ ..] => behind,
            [] => left,
        }
    }

    // A command with the span of the text that begins at `start` and ends where the text does.
    fn put_command(&mut self, command: u8, start: usize) {
        let span = Span {
            start: (start % 65536) as u16,
            len: (self.text_end.saturating_sub(start) % 65536) as u16,
        };
        let next = command.encode(&mut self.tape, self.tape_end);
        self.tape_end = span.encode(&mut self.tape, next);
    }

    // A command for each part in quotes, by the first letter before it. Blanks and NUL bytes are none.
    fn put_parts(&mut self, line: &[u8]) {
        let mut letter = None;
        let mut left = line;
        while let [b, behind @ ..] = left {
            left = behind;
            if *b == b'"' {
                let start = self.text_end;
                left = self.write_quoted(left);
                self.put_command(command_of(letter), start);
                letter = None;
            } else if letter.is_none() && *b != b' ' && *b != 0 {
                letter = Some(*b);
            }
        }
    }

    fn text(&self) -> &[u8] {
        &self.text[..self.text_end.min(65536)]
    }

    fn tape(&self) -> &[u8] {
        &self.tape[..self.tape_end.min(4096)]
    }
}

// ---- writing

fn say_if(out: &mut impl Write, test: bool, words: &str) -> Result<()> {
    if test {
        write!(out, "{words}")?;
    }
    Ok(())
}

fn say_flags(out: &mut impl Write, f: Flags) -> Result<()> {
    say_if(out, f.jsx_plugin, ", jsx_plugin")?;
    say_if(out, f.self_plugin, ", self")?;
    say_if(out, f.source_plugin, ", source")?;
    say_if(out, f.development, ", development")?;
    say_if(out, f.throw_if_namespace, ", throw_if_namespace")?;
    say_if(out, f.pure, ", pure_option")
}

fn mode_name(m: Mode) -> &'static str {
    match m {
        Mode::Module => "automatic module",
        Mode::Script => "automatic script",
        Mode::Classic => "classic",
    }
}

// A value that is present, in quotes.
fn say_value(out: &mut impl Write, name: &str, text: &[u8], o: Option<Span>) -> Result<()> {
    match o {
        None => Ok(()),
        Some(span) => {
            write!(out, "; {name} \"")?;
            out.write_all(part(text, span))?;
            write!(out, "\"")
        }
    }
}

// The form of a pragma that is in force and valid.
fn say_form(out: &mut impl Write, f: Form) -> Result<()> {
    let tail = f.tail;
    match f.root {
        PragmaRoot::Default => Ok(()),
        PragmaRoot::This => write!(out, " = this + {tail}"),
        PragmaRoot::ImportMeta => write!(out, " = import.meta + {tail}"),
        PragmaRoot::Identifier => write!(out, " = identifier + {tail}"),
    }
}

fn say_settings(out: &mut impl Write, text: &[u8], s: Settings) -> Result<()> {
    let options = s.options;
    let name = mode_name(s.mode);
    write!(out, "{name}")?;
    say_if(out, s.pure, ", pure")?;
    say_flags(out, options.flags)?;
    say_value(out, "pragma", text, options.pragma)?;
    say_form(out, s.pragma)?;
    say_value(out, "fragment", text, options.pragma_frag)?;
    say_form(out, s.pragma_frag)?;
    say_value(out, "importSource", text, options.import_source)?;
    say_value(out, "TypeScript pragma", text, options.ts_pragma)?;
    say_value(out, "TypeScript fragment", text, options.ts_pragma_frag)
}

// The notices, where there are any.
fn say_notices(out: &mut impl Write, notices: &[u8], fill: usize) -> Result<()> {
    if fill == 0 {
        return Ok(());
    }
    write!(out, "; notices")?;
    if let Some(front) = notices.get(..fill) {
        for b in front {
            write!(out, " {b:02x}")?;
        }
    }
    Ok(())
}

// Whether each byte from this place on is what it was at first.
fn is_left(target: &[u8], from: usize) -> bool {
    target.iter().skip(from).all(|b| *b == 0xee)
}

// Opens a job. Each byte of the notice target is EE at first.
fn open(out: &mut impl Write, job: &Draft, room: usize) -> Result<()>
    requires { room ≤ 16 }
{
    let text = job.text();
    let mut space = [0xee; 16];
    let notices = &mut space[..room];
    let opened = open_job(text, job.tape(), notices);
    let state = opened.state;
    write!(out, "    ")?;
    match opened.answer {
        Ok(()) => say_settings(out, text, state.settings)?,
        Err(why) => {
            let number = why.number();
            let figure = why.figure();
            write!(out, "refused {number} {figure}")?;
        }
    }
    say_notices(out, notices, state.notices)?;
    say_if(out, !is_left(notices, state.notices), "; more was written")?;
    writeln!(out)
}

// ---- the jobs

fn run_line(out: &mut impl Write, line: &[u8], job: &mut Draft) -> Result<()> {
    let [a, b, c, d, words @ ..] = line else {
        return Ok(());
    };
    out.write_all(line)?;
    writeln!(out)?;
    if *a == b'#' {
        return Ok(());
    }
    job.begin(u16::from_be_bytes([byte_of(*a, *b), byte_of(*c, *d)]));
    job.put_parts(words);
    open(out, job, room_of(line))
}

fn run_lines(out: &mut impl Write, input: &[u8], job: &mut Draft) -> Result<()> {
    for line in input.split(|b| *b == b'\n') {
        run_line(out, line, job)?;
    }
    Ok(())
}

// Opens a classic job whose one comment begins with so many pairs of two bytes and then says `rest`.
fn run_long(
    out: &mut impl Write,
    pairs: usize,
    pair: &[u8],
    rest: &[u8],
    job: &mut Draft,
) -> Result<()> {
    job.begin(0x09);
    for _ in 0..pairs {
        job.write(pair);
    }
    job.write(rest);
    job.put_command(codes::COMMENT, 0);
    open(out, job, 16)
}

// ---- pragmas by rule

// Seven parts, the last of which is empty.
const PARTS: [&[u8]; 7] = [b"this", b"import", b"meta", b"h", b"class", b"1x", b""];

// A dot and one more part for a number from 1 on, by its remainder, and then those behind it; nothing for 0.
fn put_more(job: &mut Draft, parts: usize) {
    let mut left = parts;
    while 0 < left {
        job.write(b".");
        job.write(PARTS[(left - 1) % 7]);
        left = (left - 1) / 7;
    }
}

// The text, and how its pragma was read: its form, or the notice of the part that fails.
fn show_pragma(out: &mut impl Write, job: &Draft) -> Result<()> {
    let text = job.text();
    let mut notices = [0xee; 16];
    let opened = open_job(text, job.tape(), &mut notices);
    let state = opened.state;
    out.write_all(text)?;
    say_form(out, state.settings.pragma)?;
    say_notices(out, &notices, state.notices)?;
    writeln!(out)
}

// A classic job with the pragma of this number, behind one more byte of the text: below 2,800 each pragma of one to four parts has one, in which the first part
// counts for the least.
fn run_pragma(out: &mut impl Write, parts: usize, job: &mut Draft) -> Result<()> {
    job.begin(0x08);
    job.write(b"@");
    job.write(PARTS[parts % 7]);
    put_more(job, parts / 7);
    job.put_command(codes::PRAGMA, 1);
    show_pragma(out, job)
}

fn run_pragmas(out: &mut impl Write, job: &mut Draft) -> Result<()> {
    for parts in 0..2800 {
        run_pragma(out, parts, job)?;
    }
    Ok(())
}

// The jobs of the input, then those that are made by rule.
fn run(out: &mut impl Write, input: &[u8]) -> Result<()> {
    let mut draft = Draft {
        text: [0; 65536],
        text_end: 0,
        tape: [0; 4096],
        tape_end: 0,
    };
    let job = &mut draft;
    run_lines(out, input, job)?;
    writeln!(out, "# ---- long comments: 60,000 at signs, then a pragma")?;
    run_long(out, 30000, b"@@", b" @jsx h.g", job)?;
    writeln!(
        out,
        "# 30,000 at signs, each behind a space, or behind a letter"
    )?;
    run_long(out, 30000, b" @", b" @jsx h.g", job)?;
    run_long(out, 30000, b"x@", b" @jsx h.g", job)?;
    writeln!(out, "# 65,535 bytes, and one more")?;
    run_long(out, 32763, b"@@", b" @jsx h.g", job)?;
    run_long(out, 32763, b"@@", b" @jsx h.gg", job)?;
    writeln!(
        out,
        "# ---- behind an @, every pragma of up to four parts out of this, import, meta, h, class, 1x and an empty one"
    )?;
    run_pragmas(out, job)
}

fn main(rt: HostRuntime) {
    let mut input = [0u8; 65536];
    let n = read_full(&mut rt.reader(), &mut input);
    // a test whose output is not taken has failed by what is missing there
    let _ = run(&mut io::writer(&rt), &input[..n]);
}
