// One character of a text, and ECMA-262's classes of characters.
ghost use Rattle.std.specs.Prelude.{◌-◌, ◌≡◌};
ghost use Rattle.text.specs.Utf8.{code_of};
ghost use Rattle.text.specs.Chars.{char_of, is_space_separator, is_white_space, is_line_terminator};

use crate::utf8::width;

// A code point and how many bytes it takes in the text.
#[derive(Clone, Copy)]
pub struct Char {
    pub code: u32,
    pub width: usize,
}

// By how much a byte is over `floor`.
fn over(b: u8, floor: u8) -> u32
    ensures { result ≡ b - floor }
{
    u32::from(b.saturating_sub(floor))
}

// The code point of a well-formed sequence.
// kept: `str::from_utf8` and `chars` would test the sequence a second time, and take it for a text.
fn code_of(sequence: &[u8]) -> u32
    ensures { result ≡ code_of sequence.now }
{
    match sequence {
        [] => 0,
        [a] => u32::from(*a),
        [a, b] => over(*a, 0xc0) * 64 + over(*b, 0x80),
        [a, b, c] => over(*a, 0xe0) * 4096 + over(*b, 0x80) * 64 + over(*c, 0x80),
        [a, b, c, d, ..] => {
            over(*a, 0xf0) * 262144 + over(*b, 0x80) * 4096 + over(*c, 0x80) * 64 + over(*d, 0x80)
        }
    }
}

// The character with which s begins, where a well-formed sequence stands there.
pub fn first_char(s: &[u8]) -> Option<Char>
    ensures { result ≡ char_of s.now }
{
    let width = width(s)?;
    Some(Char {
        code: code_of(&s[..width]),
        width: width,
    })
}

#[tactic(auto, unfolding(crate::specs::Chars::is_white_space))]
pub fn is_white_space(code: u32) -> bool
    ensures { result ≡ is_white_space code }
{
    matches!(code, 0x09 | 0x0b | 0x0c | 0xfeff) || is_space_separator(code)
}

// Whether the Unicode Standard puts the code point into the general category Zs.
fn is_space_separator(code: u32) -> bool
    ensures { result ≡ is_space_separator code }
{
    matches!(
        code,
        0x20 | 0xa0 | 0x1680 | 0x2000..=0x200a | 0x202f | 0x205f | 0x3000
    )
}

#[tactic(auto, unfolding(crate::specs::Chars::is_line_terminator))]
pub fn is_line_terminator(code: u32) -> bool
    ensures { result ≡ is_line_terminator code }
{
    matches!(code, 0x0a | 0x0d | 0x2028 | 0x2029)
}
