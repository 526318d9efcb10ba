// A job of one root: opening, the root, the records.
ghost use Rattle.std.specs.Prelude.{◌≡◌, take};
ghost use Rattle.definitions.specs.Entries.{judge_root};
ghost use Rattle.definitions.specs.Program.{room, print_root, jsxtape};
ghost use Rattle.jsxtape.specs.Endings.{Ends};

use definitions::state::State;
use lowering::lower_root;
use settings::opening::open_job;
use store::module_imports::write_records;
use tape::refusal::Refusal;

// "Each of its targets holds 65,536 bytes"
pub const ROOM: usize = 65536;

// Where a job's calls, notices and records go.
// kept: programs take no memory from a heap, so that the targets are fixed arrays.
#[derive(Drop)]
pub struct Targets {
    pub calls: [u8; ROOM],
    pub notices: [u8; ROOM],
    pub records: [u8; ROOM],
}

// How many bytes of each target a job fills.
#[derive(Clone, Copy)]
pub struct Written {
    pub calls: usize,
    pub notices: usize,
    pub records: usize,
}

// The root behind an opening, whose notices stand at the front of their target.
fn run_root(
    text: &[u8],
    state: State,
    root: &[u8],
    targets: &mut Targets,
) -> Result<Written, Refusal>
    requires { state.calls ≡ 0 }
    ensures { Ends (print_root text.now (take state.notices targets.old.notices) state (judge_root text.now state root.now room room)) result targets.new }
{
    let stepped = lower_root(text, state, root, &mut targets.calls, &mut targets.notices);
    stepped.answer?;
    let after = stepped.state;
    let records = write_records(text, after, &mut targets.records)?;
    Ok(Written {
        calls: after.calls,
        notices: after.notices,
        records,
    })
}

// What `jsxtape` prints: a refusal, or how far each of the three targets is filled.
pub fn run_job(
    job: &[u8],
    text: &[u8],
    root: &[u8],
    targets: &mut Targets,
) -> Result<Written, Refusal>
    ensures { Ends (jsxtape job.now text.now root.now) result targets.new }
{
    let opened = open_job(text, job, &mut targets.notices);
    opened.answer?;
    run_root(text, opened.state, root, targets)
}
