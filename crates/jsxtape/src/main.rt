// Reads job.bin, text.bin and root.bin and prints the root's calls, its notices and the records, or what was refused.
#![tactic(auto)]

mod job;

ghost use Rattle.std.specs.Prelude.{◌≡◌, length};
ghost use Rattle.definitions.specs.Program.{room};
ghost use Rattle.jsxtape.specs.Endings.{most};

use files::{CANNOT_WRITE, print_line, print_refusal, read_file};
use job::{ROOM, Targets, Written, run_job};
use std::io;
use std::io::Write;
use std::rt::Files;
use tape::refusal::Refusal;

// The longest of the three lines has three bytes for each of a full target, its word and a line feed.
const LINE: usize = 3 * ROOM + 192;

// The front of each target, or the refusal. A line that can't be written is the last.
fn print_ended(
    out: &mut impl Write,
    ended: Result<Written, Refusal>,
    targets: &Targets,
) -> io::Result<()>
    requires { most ended room }
{
    let mut line = [0u8; LINE];
    match ended {
        Err(refusal) => print_refusal(out, refusal, &mut line),
        Ok(written) => {
            print_line(out, b"calls", &targets.calls[..written.calls], &mut line)?;
            print_line(
                out,
                b"notices",
                &targets.notices[..written.notices],
                &mut line,
            )?;
            print_line(
                out,
                b"records",
                &targets.records[..written.records],
                &mut line,
            )
        }
    }
}

fn run(rt: &(impl Files + Print)) -> io::Result<()> {
    let mut job = [0u8; ROOM];
    let mut text = [0u8; ROOM];
    let mut root = [0u8; ROOM];
    let j = read_file(rt, b"job.bin", &mut job);
    let t = read_file(rt, b"text.bin", &mut text);
    let r = read_file(rt, b"root.bin", &mut root);
    let mut targets = Targets {
        calls: [0; ROOM],
        notices: [0; ROOM],
        records: [0; ROOM],
    };
    let ended = run_job(&job[..j], &text[..t], &root[..r], &mut targets);
    print_ended(&mut io::writer(rt), ended, &targets)
}

fn main(rt: HostRuntime) {
    if run(&rt).is_err() {
        let _ = rt.eprintln(CANNOT_WRITE);
    }
}
