// How many bytes of its tape a command takes: one for its code, and its operands.
ghost use Rattle.std.specs.Prelude.{◌≡◌};
ghost use Rattle.text.specs.Utf8.{nonzero};
ghost use Rattle.commands.specs.Sizes.{command_size};

use crate::root::Place;
use tape::numbers::Operand;
use text::spans::Span;

// ---- what commands take, by what they carry

pub const BARE: usize = 1;

pub const WITH_KIND: usize = BARE + u8::SIZE;

pub const WITH_FLAGS: usize = BARE + u16::SIZE;

pub const WITH_EXPRESSION: usize = BARE + u16::SIZE;

pub const WITH_SPAN: usize = BARE + Span::SIZE;

pub const WITH_EXPRESSION_AND_SPAN: usize = WITH_EXPRESSION + Span::SIZE;

pub const WITH_SPANS: usize = WITH_SPAN + Span::SIZE;

pub const WITH_PLACE: usize = BARE + Place::SIZE;

// ---- what the commands of the root tape take, by code

// By its code how many bytes a command takes, sixteen codes in a line; 0 where there is no command. `root_commands` (specs/Sizes) names them.
static SIZES: [u8; 96] = [
    0, 2, 2, 0, 0, 0, 0, 0, 0, 0, 0, 0, 0, 0, 0, 0, // 00
    9, 9, 0, 0, 0, 0, 0, 0, 0, 0, 0, 0, 0, 0, 1, 1, // 10
    5, 5, 1, 9, 0, 5, 0, 0, 0, 0, 0, 0, 0, 0, 0, 0, // 20
    5, 9, 3, 3, 3, 1, 7, 0, 0, 0, 0, 0, 0, 0, 0, 0, // 30
    1, 5, 3, 1, 0, 0, 0, 0, 0, 0, 0, 0, 0, 0, 0, 0, // 40
    5, 3, 0, 0, 0, 0, 0, 0, 0, 0, 0, 0, 0, 0, 0, 0, // 50
];

// How many bytes the command of the root tape with this code takes.
pub fn command_size(code: u8) -> Option<usize>
    ensures { result ≡ nonzero (command_size code) }
{
    match *SIZES.get(usize::from(code))? {
        0 => None,
        size => Some(usize::from(size)),
    }
}
