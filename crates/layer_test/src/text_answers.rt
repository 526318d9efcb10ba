// What the crate `text` says of an operation's bytes.
use crate::making::place_found;
use tape::numbers::Operand;
use text::bytes::{find_byte, find_over_ascii};
use text::chars::{first_char, is_line_terminator, is_white_space};
use text::spans::{Bounds, Span, part, span_bounds};
use text::utf8::first_ill_formed;
use vectors::answers::{Answer, named, no_values, with_bytes, with_value};

pub fn well_formed(s: &[u8]) -> Answer {
    place_found(first_ill_formed(s))
}

// The code point and the width; two zeros where no character stands.
pub fn character(s: &[u8]) -> Answer {
    match first_char(s) {
        Some(c) => with_value(with_value(no_values(), c.code as u64), c.width as u64),
        None => with_bytes(no_values(), &[0, 0]),
    }
}

pub fn class(s: &[u8]) -> Answer {
    match first_char(s) {
        Some(c) if is_white_space(c.code) => named(b"white"),
        Some(c) if is_line_terminator(c.code) => named(b"terminator"),
        _ => named(b"other"),
    }
}

// Four bytes say the span, the text follows.
fn span_and_text<'a>(s: &'a [u8]) -> Option<(Span, &'a [u8])> {
    let (span, text) = s.split_at_checked(4)?;
    Some((Span::read(span, 0), text))
}

pub fn bounds(s: &[u8]) -> Answer {
    let Some((span, text)) = span_and_text(s) else {
        return named(b"short");
    };
    match span_bounds(text, span) {
        Bounds::Outside => named(b"outside"),
        Bounds::Cuts => named(b"cuts"),
        Bounds::Empty => named(b"empty"),
        Bounds::Good => named(b"good"),
    }
}

pub fn part_bytes(s: &[u8]) -> Answer {
    match span_and_text(s) {
        Some((span, text)) => with_bytes(no_values(), part(text, span)),
        None => named(b"short"),
    }
}

// The first byte is looked for in the others.
pub fn find(s: &[u8]) -> Answer {
    match s.split_first() {
        Some((b, others)) => place_found(find_byte(others, *b)),
        None => named(b"short"),
    }
}

pub fn over_ascii(s: &[u8]) -> Answer {
    place_found(find_over_ascii(s))
}

// Which of the words that the project compares with s is.
pub fn fixed_word(s: &[u8]) -> Answer {
    match s {
        b"key"
        | b"__proto__"
        | b"this"
        | b"import"
        | b"meta"
        | b"classic"
        | b"automatic"
        | b"Frag"
        | b"Runtime"
        | b"ImportSource" => named(s),
        _ => named(b"none"),
    }
}
