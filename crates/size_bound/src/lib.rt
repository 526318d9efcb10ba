// A bound on the size of a root's calls, told by one pass over its tape, so that a target with that much room need not be measured first.
#![tactic(auto)]

ghost use Rattle.std.specs.Prelude.{◌≡◌, ◌+◌, ◌-◌, ◌<◌, length, drop};
ghost use Rattle.commands.specs.Sizes.{command_size};
ghost use Rattle.size_bound.specs.SizeBound.{text_length, call_size_bound, HoldsCalls};

use commands::sizes::command_size;
use commands::{codes, sizes};
use tape::limits::MAX_LENGTH;
use tape::numbers::Operand;

// How many bytes are passed at a code: those of its command, or the one where no command begins with it.
#[tactic(auto, using(commands::proofs::Table::size_or_one))]
fn bytes_passed(code: u8) -> usize
    ensures { result ≡ 1 + (command_size code - 1) }
{
    command_size(code).unwrap_or(1)
}

// The length of the text that the command at a place tells; 0 where it is none, or cut off.
// kept: over a tape of texts a slice pattern takes 21 percent more instructions (callgrind), since its length is tested at every code; more than 3 is too slow.
fn text_length(tape: &[u8], at: usize) -> u16
    requires { at < length tape.now }
    ensures { result ≡ text_length (drop at tape.now) }
{
    if tape[at] != codes::TEXT || tape.len() - at < sizes::WITH_SPAN {
        return 0;
    }
    // a span's length stands behind its start
    u16::read(tape, at + sizes::BARE + u16::SIZE)
}

// Four bytes for each of the tape and six for each of its texts': as much as the calls of the root can take, if it is one.
pub fn call_size_bound(tape: &[u8]) -> usize
    ensures value { result ≡ call_size_bound tape.now }
    ensures holds_calls { HoldsCalls tape.now result }
{
    if MAX_LENGTH < tape.len() {
        return 0;
    }
    let mut at: usize = 0;
    let mut texts: usize = 0;
    // kept: a loop over the rest of the tape takes 40 percent more instructions (callgrind); more than 3 is too slow.
    while at < tape.len() {
        texts += text_length(tape, at) as usize;
        at += bytes_passed(tape[at]);
    }
    4 * tape.len() + 6 * texts
}
