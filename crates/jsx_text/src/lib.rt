// The lines of a JSX text, written to the call tape: `fixup_whitespace_and_decode_entities` and `add_line_of_jsx_text` of jsx_impl.rs.
// Nothing is decoded: a text with a character reference was refused before.
#![tactic(auto)]

ghost use Rattle.std.specs.Prelude.{◌≡◌, true, cond, ◌+◌, ◌-◌, ◌≤◌, ◌<◌, ◌^◌, min, length, get_or};
ghost use Rattle.text.specs.Utf8.{first_ill};
ghost use Rattle.text.specs.Spans.{part_of};
ghost use Rattle.tape.specs.Targets.{Wrote};
ghost use Rattle.definitions.specs.JsxText.{jsx_text};
ghost use Rattle.definitions.specs.Calls.{bare_code};
ghost use Rattle.definitions.specs.Lowering.{some_line};
ghost use Rattle.jsx_text.specs.Marks.{marked, Run, Plain, Marks};
ghost use Rattle.jsx_text.specs.TextBytes.{text_bytes, line_bytes, end_bytes};

use definitions::call_tape::{Bare, Coded, WithSpan};
use tape::target::{Encode, LAST_PLACE};
use text::bytes::{ASCII_END, passed_blocks};
use text::chars::{Char, first_char, is_line_terminator, is_white_space};
use text::spans::{Span, part};

// The place behind what was written, and whether there was a line to write: a text whose lines all vanish is no child.
// kept: the place counts in both cases; an `Option` of it would have the place before the first line as a parameter beside it.
#[derive(Clone, Copy)]
pub struct Texted {
    pub at: usize,
    pub survives: bool,
}

// What stands at a place of the text, by what it is to a line, and how many bytes it has.
// kept: the three arms of the walk each take the width, so a kind beside a width would be matched and taken apart again
#[derive(Clone, Copy)]
enum Mark {
    Ink(usize),
    White(usize),
    Terminator(usize),
}

fn mark_of(c: Char) -> Mark
    ensures { result ≡ marked c }
{
    if is_line_terminator(c.code) {
        return Mark::Terminator(c.width);
    }
    if is_white_space(c.code) {
        return Mark::White(c.width);
    }
    Mark::Ink(c.width)
}

const LAST_ASCII: u8 = ASCII_END - 1;

// So many bytes of a run are tested at once.
const BLOCK: usize = 16;

// Whether each byte is from lo to hi. There is no branch on a byte, so that the compiler can take many bytes at a time.
fn is_run(s: &[u8], lo: u8, hi: u8) -> bool
    ensures { result ≡ true → Run s.now lo hi 0 (length s.now) }
{
    s.iter().fold(true, |all, b| all & (lo <= *b) & (*b <= hi))
}

// How far the blocks from a place on have bytes from lo to hi alone.
fn run_blocks(s: &[u8], from: usize, lo: u8, hi: u8) -> usize
    requires { from ≤ length s.now }
    ensures { Run s.now lo hi from result }
{
    from + passed_blocks(&s[from..], BLOCK, |block| is_run(block, lo, hi))
}

// How far the bytes from a place on are from lo to hi.
// kept: `take_while(..).count()` takes 6 percent more instructions over a text of words (callgrind), `position` and a `for` over the rest 10; more than 3 is too slow.
fn run_end(s: &[u8], from: usize, lo: u8, hi: u8) -> usize
    requires { from ≤ length s.now }
    ensures { Run s.now lo hi from result }
{
    let mut to = run_blocks(s, from, lo, hi);
    while to < s.len() && lo <= s[to] && s[to] <= hi {
        to += 1;
    }
    to
}

// The end of the run of plain ASCII at place i, spaces within it but not at its back: whether those count, what follows tells.
fn plain_end(s: &[u8], i: usize) -> usize
    requires i_in_bounds { i < length s.now }
    requires bound { (0x20 < get_or s.now i 0) × (get_or s.now i 0 < 0x80) }
    ensures { Plain s.now i result }
{
    let to = run_end(s, i + 1, b' ', LAST_ASCII);
    match s[i + 1..to].iter().rposition(|b| *b != b' ') {
        Some(n) => i + n + 2,
        None => i + 1,
    }
}

// What stands at place i; a byte that begins no character is ink. Most of a text is words of ASCII and spaces that indent them: those are
// passed in runs, a few instructions a byte.
fn mark_at(s: &[u8], i: usize) -> Mark
    requires { i < length s.now }
    ensures { Marks s.now i result }
{
    match s[i] {
        0x80.. => match first_char(&s[i..]) {
            Some(c) => mark_of(c),
            None => Mark::Ink(1),
        },
        b'!'..=LAST_ASCII => Mark::Ink(plain_end(s, i) - i),
        b' ' => Mark::White(run_end(s, i + 1, b' ', b' ') - i),
        control => mark_of(Char {
            code: u32::from(control),
            width: 1,
        }),
    }
}

// What a line stands behind: the string's begin, or a space.
#[tactic(auto, unfolding(definitions::specs::Calls::bare_code))]
fn lead(later: bool) -> Bare
    ensures { bare_code result ≡ cond later 0x8c 0x8a }
{
    if later {
        Bare::Space
    } else {
        Bare::StringBegin
    }
}

// Writes a line: the first one begins the string, a later one stands behind a space.
// kept: the flag is true behind every line, but without it each of the three callers would put it beside the place again
fn add_line_of_jsx_text(calls: &mut [u8], before: Texted, line: Span) -> Texted
    ensures wrote { Wrote calls.old calls.new before.at result.at (line_bytes before.survives line) }
    ensures survives { result.survives ≡ true }
{
    let next = lead(before.survives).code().encode(calls, before.at);
    if line.len == 0 {
        return Texted {
            at: next,
            survives: true,
        };
    }
    Texted {
        at: (WithSpan::Piece.code(), line).encode(calls, next),
        survives: true,
    }
}

// Ends the string, if there is one.
#[tactic(auto, unfolding(crate::specs::TextBytes::end_bytes, definitions::specs::Calls::bare_code))]
fn end_of_jsx_text(calls: &mut [u8], before: Texted) -> Texted
    ensures wrote { Wrote calls.old calls.new before.at result.at (end_bytes before.survives) }
    ensures survives { result.survives ≡ before.survives }
{
    let at = if before.survives {
        Bare::StringEnd.code().encode(calls, before.at)
    } else {
        ().encode(calls, before.at)
    };
    Texted { at, ..before }
}

// From one place to another of a part of the text that starts at `start`.
fn span_between(start: usize, first: usize, last: usize) -> Span
    requires { (first ≤ last) × (start + last ≤ 65535) }
    ensures { result ≡ record { start = start + first; len = last - first } }
{
    Span::new(start + first, last - first)
}

// Writes the lines of the text at `span`: one line stays whole; of several the first keeps its front, the last its back, and blank
// ones vanish.
pub fn fixup_whitespace_and_decode_entities(
    text: &[u8],
    span: Span,
    calls: &mut [u8],
    at: usize,
) -> Texted
    requires text_len_bound { length text.now ≤ 65535 }
    requires well_formed { first_ill (part_of text.now span) ≡ None }
    ensures wrote { Wrote calls.old calls.new at result.at (text_bytes (jsx_text text.now span)) }
    ensures survives { some_line (jsx_text text.now span) ≡ cond result.survives 1 0 }
{
    let chars = part(text, span);
    let start = span.start as usize;
    let mut texted = Texted {
        at: at.min(LAST_PLACE),
        survives: false,
    };
    // The present line by two places. In the first line, which keeps its front, the first is 0; in a later line it is the text's end
    // until something else than white space comes. The last is behind what is no white space: not past the first, the line is blank.
    let mut first_non_whitespace = 0;
    let mut last_non_whitespace = 0;
    let mut i = 0;
    // kept: a turn passes as many bytes as stand there, and a line is told by two places in the text; that the text ends as an `Option` of a mark takes 7 percent
    // more instructions (callgrind), and more than 3 is too slow.
    while i < chars.len() {
        match mark_at(chars, i) {
            Mark::Ink(width) => {
                first_non_whitespace = first_non_whitespace.min(i);
                i += width;
                last_non_whitespace = i;
            }
            Mark::White(width) => {
                i += width;
            }
            Mark::Terminator(width) => {
                i += width;
                if first_non_whitespace < last_non_whitespace {
                    let line = span_between(start, first_non_whitespace, last_non_whitespace);
                    texted = add_line_of_jsx_text(calls, texted, line);
                }
                first_non_whitespace = chars.len();
            }
        }
    }
    if first_non_whitespace == 0 {
        let whole = add_line_of_jsx_text(calls, texted, span);
        return end_of_jsx_text(calls, whole);
    }
    if first_non_whitespace < chars.len() {
        let line = span_between(start, first_non_whitespace, chars.len());
        let last = add_line_of_jsx_text(calls, texted, line);
        return end_of_jsx_text(calls, last);
    }
    end_of_jsx_text(calls, texted)
}
