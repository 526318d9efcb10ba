// What can be wrong at a command, and what it carries.
ghost use Rattle.std.specs.Prelude.{◌≡◌, ◌+◌, Ok};
ghost use Rattle.commands.specs.Operands.{operands};

use tape::numbers::Operand;

// In the order in which they are told: a command that may not stand there, operands cut off or the tape's end, an operand that is not allowed.
#[derive(Clone, Copy)]
pub enum CommandError {
    Wrong,
    Cut,
    Bad,
}

// The operand from `at` on, of the bytes behind a command's code.
pub fn operand<T: Operand>(rest: &[u8], at: usize) -> Result<T, CommandError>
    ensures { result ≡ operands (at + T.SIZE) rest.now (Ok (T.value rest.now at)) }
{
    if rest.len() < at || rest.len() - at < T::SIZE {
        return Err(CommandError::Cut);
    }
    Ok(T::read(rest, at))
}

// Two operands, one behind the other.
pub fn operand_pair<A: Operand + Copy, B: Operand>(rest: &[u8]) -> Result<(A, B), CommandError>
    ensures { result ≡ operands (A.SIZE + B.SIZE) rest.now (Ok (A.value rest.now 0, B.value rest.now A.SIZE)) }
{
    let first = operand(rest, 0)?;
    Ok((first, operand(rest, A::SIZE)?))
}
