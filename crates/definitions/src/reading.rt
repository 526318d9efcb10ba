// What both tapes that are read have in common.
ghost use Rattle.std.specs.Prelude.{◌≡◌};
ghost use Rattle.definitions.specs.Judging.{legible};

use commands::error::CommandError;
use tape::refusal::{Fault, TapeError};

// A command at the front of the tape: where it can't be read, told behind what is left if it is cut off, and else at the command.
#[tactic(auto, unfolding(crate::specs::Judging::legible))]
pub fn legible<C>(tape: &[u8], command: Result<C, CommandError>) -> Result<C, TapeError>
    ensures { result ≡ legible tape.now command }
{
    command.map_err(|error| TapeError {
        fault: Fault::Grammar,
        place: match error {
            CommandError::Cut => tape.len(),
            CommandError::Wrong | CommandError::Bad => 0,
        },
    })
}
