// A list of roots, lowered as it is read.
ghost use Rattle.std.specs.Prelude.{◌≡◌, ◌≤◌, length, take};
ghost use Rattle.definitions.specs.Series.{series};
ghost use Rattle.lowering.specs.RootLists.{roots_in};
ghost use Rattle.jsxseries.specs.Running.{first_of};

use definitions::state::State;
use files::{print_line, print_refusal, read_full};
use lowering::lower_root;
use std::io;
use std::io::{Read, Write};
use tape::numbers::Operand;
use tape::refusal::Refusal;

// How many bytes each target of the program holds.
pub const ROOM: usize = 65536;

// A root's length, and as many bytes as that says at the most.
const LONGEST: usize = 2 + 65535;

// A job that was opened: its text, its state, and the targets of its calls and notices.
// kept: programs take no memory from a heap, so that the targets are fixed arrays, and the state says how far they are filled.
#[derive(Drop)]
pub struct Series<'a> {
    pub text: &'a [u8],
    pub state: State,
    pub calls: [u8; ROOM],
    pub notices: [u8; ROOM],
}

impl Series<'_> {
    ghost use Rattle.jsxseries.specs.Running.{world_of, Fits};

    // Lowers the first root of a list, of which these bytes were read: its length, and as many bytes as that says. None where there is no whole one.
    fn lower_read(&mut self, read: &[u8]) -> Option<Result<(), Refusal>>
        ensures first_value { result ≡ first_of self.old.text.now (world_of self.old) (roots_in read.now) }
        ensures world_after { world_of self.new ≡ series self.old.text.now (world_of self.old) (take 1 (roots_in read.now)) }
        ensures text_stays { self.new.text ≡ self.old.text }
    {
        if read.len() < 2 {
            return None;
        }
        let size = usize::from(u16::read(read, 0));
        if read.len() - 2 < size {
            return None;
        }
        let end = 2 + size;
        let stepped = lower_root(
            self.text,
            self.state,
            &read[2..end],
            &mut self.calls,
            &mut self.notices,
        );
        self.state = stepped.state;
        Some(stepped.answer)
    }

    // Lowers the roots of the list in turn, each from the buffer that it was read into, and prints an answer for each, up to the end of the list or a line
    // that is not written. Which roots these are depends on what is read, so only what the printing needs is stated: that the fills lie within the targets, and
    // that the text stays.
    pub fn lower_all<R: Read, W: Write>(
        &mut self,
        list: &mut R,
        out: &mut W,
        line: &mut [u8],
    ) -> io::Result<()>
        requires { Fits (world_of self.old) }
        ensures fits { Fits (world_of self.new) }
        ensures text_stays { self.new.text ≡ self.old.text }
    {
        let mut buffer = [0u8; LONGEST];
        // a proved loop has to end, and nothing says that a list does: so the turns are counted, to a number that no list uses up
        for _ in 0..u64::MAX {
            let n = read_root(list, &mut buffer);
            let Some(answer) = self.lower_read(&buffer[..n]) else {
                return Ok(());
            };
            print_answer(out, answer, line)?;
        }
        Ok(())
    }
}

// Reads the next root's length and as many bytes as that says into the front of the buffer, and tells how many bytes came: fewer, where the list ends.
fn read_root<R: Read>(list: &mut R, buffer: &mut [u8; LONGEST]) -> usize
    ensures { result ≤ length buffer.new }
{
    let n = read_full(list, &mut buffer[..2]);
    if n < 2 {
        return n;
    }
    let end = 2 + usize::from(u16::read(buffer, 0));
    2 + read_full(list, &mut buffer[2..end])
}

fn print_answer(
    out: &mut impl Write,
    answer: Result<(), Refusal>,
    line: &mut [u8],
) -> io::Result<()> {
    match answer {
        Err(refusal) => print_refusal(out, refusal, line),
        Ok(()) => print_line(out, b"accepted", b"", line),
    }
}
