// Lines of what the store answers.
ghost use Rattle.std.specs.Prelude.{◌≤◌};

use crate::states::store_of;
use definitions::records::Import;
use definitions::state::State;
use files::print_bytes;
use std::io;
use std::io::Write;
use store::forged::is_forged;
use store::module_imports::write_records;
use tape::refusal::Refusal;

// A space and two digits for each byte of the longest target.
const LINE: usize = 32 * 3;

fn show_answer(out: &mut impl Write, written: Result<usize, Refusal>) -> io::Result<()> {
    match written {
        Ok(n) => write!(out, ": accepted {n}:"),
        Err(why) => {
            let number = why.number();
            let figure = why.figure();
            write!(out, ": refused {number} {figure}:")
        }
    }
}

// Writing the records of a state over the empty text, into a target of `room` bytes.
pub fn show(out: &mut impl Write, label: &str, state: State, room: usize) -> io::Result<()>
    requires { room ≤ 32 }
{
    show_over(out, label, b"", state, room)
}

// The same over a text.
pub fn show_over(
    out: &mut impl Write,
    label: &str,
    text: &[u8],
    state: State,
    room: usize,
) -> io::Result<()>
    requires { room ≤ 32 }
{
    let mut space = [0xee; 32];
    let target = &mut space[..room];
    let written = write_records(text, state, target);
    write!(out, "{label}")?;
    show_answer(out, written)?;
    let mut line = [0u8; LINE];
    print_bytes(out, target, &mut line)?;
    writeln!(out)
}

// Whether a root over the empty text turns the state away.
pub fn show_forged(
    out: &mut impl Write,
    label: &str,
    state: State,
    call_room: usize,
    notice_room: usize,
) -> io::Result<()> {
    let answer = if is_forged(b"", state, call_room, notice_room) {
        "forged"
    } else {
        "sound"
    };
    writeln!(out, "{label}: {answer}")
}

// The number that an import gets, or that the store is full, and how many records there are then.
pub fn show_added(
    out: &mut impl Write,
    label: &str,
    state: State,
    import: Import,
) -> io::Result<()> {
    let mut store = store_of(state);
    let added = store.add_import(import);
    let count = store.count;
    match added {
        Some(number) => writeln!(out, "{label}: number {number} of {count}"),
        None => writeln!(out, "{label}: full of {count}"),
    }
}
