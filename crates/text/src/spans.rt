// Spans into a text.
ghost use Rattle.std.specs.Prelude.{◌≡◌, ◌+◌, ◌≤◌};
ghost use Rattle.text.specs.Spans.{part_of, cuts_at, bounds_of};

// A part of the text: where it starts, and how many bytes it has.
#[derive(Clone, Copy)]
pub struct Span {
    pub start: u16,
    pub len: u16,
}

impl Span {
    // So many bytes from a place on, of a text that a span can reach.
    pub fn new(start: usize, len: usize) -> Span
        requires reached { start + len ≤ 65535 }
        ensures { result ≡ record { start = start; len = len } }
    {
        Span {
            start: start as u16,
            len: len as u16,
        }
    }
}

// What is wrong with a span, the last of these that holds; `Empty` is wrong only for a name. Of two spans' bounds the greater is the worse.
#[derive(Clone, Copy, PartialEq, Eq, PartialOrd, Ord)]
pub enum Bounds {
    Good,
    Empty,
    Cuts,
    Outside,
}

// The part of the text that the span names, as far as the text goes.
pub fn part<'a>(text: &'a [u8], span: Span) -> &'a [u8]
    ensures { result.now ≡ part_of text.now span }
{
    let start = usize::from(span.start);
    let end = start + usize::from(span.len);
    &text[start.min(text.len())..end.min(text.len())]
}

// Whether the place `i` lies within a character.
#[tactic(auto, unfolding(crate::specs::Spans::cuts_at))]
fn cuts_at(text: &[u8], i: usize) -> bool
    ensures { result ≡ cuts_at text.now i }
{
    matches!(text.get(i), Some(0x80..=0xbf))
}

#[tactic(auto, unfolding(crate::specs::Spans::bounds_of))]
pub fn span_bounds(text: &[u8], span: Span) -> Bounds
    ensures { result ≡ bounds_of text.now span }
{
    let start = usize::from(span.start);
    let end = start + usize::from(span.len);
    if text.len() < end {
        return Bounds::Outside;
    }
    if cuts_at(text, start) || cuts_at(text, end) {
        return Bounds::Cuts;
    }
    if span.len == 0 {
        return Bounds::Empty;
    }
    Bounds::Good
}
