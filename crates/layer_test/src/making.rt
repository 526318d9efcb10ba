// Answers out of what the two crates return.
use commands::root::Place;
use text::spans::Span;
use vectors::answers::{Answer, named, no_values, with_value};

pub fn with_number(name: &[u8], n: u64) -> Answer {
    with_value(named(name), n)
}

pub fn and_span(a: Answer, s: Span) -> Answer {
    with_value(with_value(a, u64::from(s.start)), u64::from(s.len))
}

pub fn with_span(name: &[u8], s: Span) -> Answer {
    and_span(named(name), s)
}

pub fn with_place(name: &[u8], p: Place) -> Answer {
    with_value(with_number(name, u64::from(p.line)), u64::from(p.column))
}

pub fn place_found(f: Option<usize>) -> Answer {
    match f {
        Some(i) => with_value(no_values(), i as u64),
        None => named(b"none"),
    }
}
