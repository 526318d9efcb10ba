// The commands of the opening tape. Each reader tests in the order of docs/TAPES.md, "Refusals": a command that may not stand there,
// operands cut off, an operand that is not allowed.
ghost use Rattle.std.specs.Prelude.{◌≡◌};
ghost use Rattle.commands.specs.Opening.{flags_command, option_command};

use crate::codes;
use crate::error::{CommandError, operand};
use text::spans::Span;

// A command behind the first.
#[derive(Clone, Copy)]
pub enum OptionCommand {
    Pragma(Span),
    PragmaFrag(Span),
    ImportSource(Span),
    Comment(Span),
}

// How many sets of the eight flags there are: all other bits are zero.
// kept: the reader gives the number itself, which is all that the grammar speaks of; `Flags` stands above this crate
const FLAG_SETS: u16 = 256;

// The first command: its flags.
#[tactic(auto, unfolding(crate::specs::Opening::flags_command))]
pub fn flags_command_at(tape: &[u8]) -> Result<u16, CommandError>
    ensures { result ≡ flags_command tape.now }
{
    match tape.split_first() {
        None => Err(CommandError::Cut),
        Some((&codes::FLAGS, rest)) => match operand(rest, 0)? {
            flags if flags < FLAG_SETS => Ok(flags),
            _ => Err(CommandError::Bad),
        },
        Some(_) => Err(CommandError::Wrong),
    }
}

// A command behind the first; none at the tape's end. `last` is the code of the last option on the tape, FLAGS where none has come, IMPORT_SOURCE once a comment has.
// kept: `last` is a code of the tape, compared with that of the command at hand; an enum would be ordered as these codes are
#[tactic(auto, unfolding(crate::specs::Opening::option_command))]
pub fn option_command_at(last: u8, tape: &[u8]) -> Result<Option<OptionCommand>, CommandError>
    ensures { result ≡ option_command last tape.now }
{
    let Some((&code, rest)) = tape.split_first() else {
        return Ok(None);
    };
    match code {
        codes::COMMENT => Ok(Some(OptionCommand::Comment(operand(rest, 0)?))),
        codes::PRAGMA if last < codes::PRAGMA => Ok(Some(OptionCommand::Pragma(operand(rest, 0)?))),
        codes::PRAGMA_FRAG if last < codes::PRAGMA_FRAG => {
            Ok(Some(OptionCommand::PragmaFrag(operand(rest, 0)?)))
        }
        codes::IMPORT_SOURCE if last < codes::IMPORT_SOURCE => {
            Ok(Some(OptionCommand::ImportSource(operand(rest, 0)?)))
        }
        _ => Err(CommandError::Wrong),
    }
}
