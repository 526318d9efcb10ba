// The entries for programs in other languages, over bytes and numbers. A job's state stands packed in bytes that the caller lends. Each entry
// answers 0, or the number of a refusal (docs/TAPES.md), and puts its figure where the caller can read it. A refusal leaves the state's bytes and the
// targets as they are.
// kept: the C interface: results are numbers, and what else is told goes to lent places, one by one, since that is what other languages take.
#![tactic(auto)]

ghost use Rattle.std.specs.Prelude.{◌≡◌, cond, ◌≤◌, length, take, is_some};
ghost use Rattle.definitions.specs.declared.options.Settings.{Settings};
ghost use Rattle.definitions.specs.Judging.{accepted};
ghost use Rattle.definitions.specs.Opening.{judge_opening};
ghost use Rattle.definitions.specs.Entries.{judge_records, records_answer, records_target};
ghost use Rattle.lowering.specs.RootLists.{roots_in};
ghost use Rattle.packing.specs.Packed.{packed_target, unpacked};
ghost use Rattle.size_bound.specs.SizeBound.{call_size_bound, HoldsCalls};
ghost use Rattle.jsxlib.specs.Entries.{state_from, number_by, figure_by, state_after, without_room, open_over, root_over, run_over, kept_state, records_over, records_figure, settings_over, source_over, job_over};
ghost use Rattle.jsxlib.specs.Hosts.{Served, Begins, Hosted};

use definitions::state::{State, Stepped};
use lowering::lower_root;
use lowering::series::lower_list;
use packing::layout::STATE_SIZE;
use packing::reading::{no_state, unpack};
use packing::writing::pack;
use resolved::{write_settings, write_source};
use settings::opening::open_job;
use size_bound::call_size_bound;
use store::module_imports::write_records;
use tape::refusal::{FORGED, Refusal};

// The answer of an opening whose state has no room.
#[tactic(auto, unfolding(crate::specs::Entries::without_room))]
fn without_room(answer: Result<(), Refusal>) -> Result<(), Refusal>
    ensures { result ≡ without_room answer }
{
    answer.and(Err(Refusal::Space(STATE_SIZE)))
}

// The number of an answer, and its figure where the caller can read it.
#[tactic(auto, unfolding(crate::specs::Entries::number_by, crate::specs::Entries::records_figure))]
fn tell(answer: Result<usize, Refusal>, figure: &mut usize) -> u8
    ensures number { result ≡ number_by answer }
    ensures figure_after { figure.new ≡ records_figure answer }
{
    let (number, told) = match answer {
        Ok(size) => (0, size),
        Err(refusal) => (refusal.number(), refusal.figure()),
    };
    *figure = told;
    number
}

// The same of an answer without a figure of its own: where it is accepted, this one is told.
#[tactic(auto, unfolding(crate::specs::Entries::number_by, crate::specs::Entries::figure_by, crate::specs::Entries::records_figure))]
fn tell_with(answer: Result<(), Refusal>, size: usize, figure: &mut usize) -> u8
    ensures number { result ≡ number_by answer }
    ensures figure_after { figure.new ≡ figure_by size answer }
{
    tell(answer.and(Ok(size)), figure)
}

// The state that an entry moved into its bytes; what was not moved leaves them as they are.
fn keep(moved: bool, state: State, bytes: &mut [u8])
    ensures { bytes.new ≡ cond moved (packed_target state bytes.old) bytes.old }
{
    if moved {
        let _ = pack(state, bytes);
    }
}

// The state of an accepted entry into its bytes, and the number of its answer; the figure is told, where it is accepted this one.
#[tactic(auto, unfolding(crate::specs::Entries::state_after))]
fn settle(stepped: Stepped, size: usize, bytes: &mut [u8], figure: &mut usize) -> u8
    ensures number { result ≡ number_by stepped.answer }
    ensures bytes_after { bytes.new ≡ state_after stepped.answer stepped.state bytes.old }
    ensures figure_after { figure.new ≡ figure_by size stepped.answer }
{
    keep(stepped.answer.is_ok(), stepped.state, bytes);
    tell_with(stepped.answer, size, figure)
}

fn state_from(bytes: &[u8]) -> State
    ensures { result ≡ state_from bytes.now }
{
    unpack(bytes).unwrap_or_else(no_state)
}

// Opens a job over a text: the state's 102 bytes at the front of `state`, and what its pragmas tell at the front of `notices`, at most ten bytes. Where there is no
// room for the state, 10 with 102. Whatever roots and lists of roots are handed over behind it, demand 3 holds of what these bytes and the targets then are.
#[unsafe(no_mangle)]
pub extern "C" fn jsx_open(
    text: &[u8],
    job: &[u8],
    state: &mut [u8],
    notices: &mut [u8],
    figure: &mut usize,
) -> u8
    ensures number { result ≡ number_by (open_over text.now job.now (length state.old) notices.old).stepped.answer }
    ensures figure_after { figure.new ≡ figure_by 102 (open_over text.now job.now (length state.old) notices.old).stepped.answer }
    ensures state_after { state.new ≡ state_after (open_over text.now job.now (length state.old) notices.old).stepped.answer (open_over text.now job.now (length state.old) notices.old).stepped.state state.old }
    ensures notices_after { notices.new ≡ (open_over text.now job.now (length state.old) notices.old).notices }
    ensures begins { (s : Settings) → judge_opening text.now job.now (length notices.old) ≡ accepted s → 102 ≤ length state.old → Begins text.now s notices.new × Hosted text.now s (take 102 state.new) }
{
    if state.len() < STATE_SIZE {
        // what is refused before that is told, and the caller's notices are left alone
        let mut spare = [0u8; 10];
        let tried = open_job(text, job, &mut spare);
        let told = without_room(tried.answer);
        return tell_with(told, STATE_SIZE, figure);
    }
    let stepped = open_job(text, job, notices);
    settle(stepped, STATE_SIZE, state, figure)
}

// Lowers a root: its calls and notices behind those of the roots before it, and the state after it in place of the state before.
#[unsafe(no_mangle)]
pub extern "C" fn jsx_root(
    text: &[u8],
    state: &mut [u8],
    tape: &[u8],
    calls: &mut [u8],
    notices: &mut [u8],
    figure: &mut usize,
) -> u8
    ensures number { result ≡ number_by (root_over text.now state.old tape.now calls.old notices.old).stepped.answer }
    ensures figure_after { figure.new ≡ figure_by 0 (root_over text.now state.old tape.now calls.old notices.old).stepped.answer }
    ensures state_after { state.new ≡ state_after (root_over text.now state.old tape.now calls.old notices.old).stepped.answer (root_over text.now state.old tape.now calls.old notices.old).stepped.state state.old }
    ensures calls_after { calls.new ≡ (root_over text.now state.old tape.now calls.old notices.old).calls }
    ensures notices_after { notices.new ≡ (root_over text.now state.old tape.now calls.old notices.old).notices }
{
    let from = state_from(state);
    let stepped = lower_root(text, from, tape, calls, notices);
    settle(stepped, 0, state, figure)
}

// Lowers the roots of a list in turn, up to the first that is refused, and tells how many were lowered. Each root stands behind its length, two
// bytes with the low one first.
#[tactic(auto, using(crate::proofs::Hosting::kept_by))]
#[unsafe(no_mangle)]
pub extern "C" fn jsx_roots(
    text: &[u8],
    state: &mut [u8],
    roots: &[u8],
    calls: &mut [u8],
    notices: &mut [u8],
    taken: &mut usize,
    figure: &mut usize,
) -> u8
    ensures number { result ≡ number_by (run_over text.now state.old roots.now calls.old notices.old).answer }
    ensures figure_after { figure.new ≡ figure_by 0 (run_over text.now state.old roots.now calls.old notices.old).answer }
    ensures taken_after { taken.new ≡ (run_over text.now state.old roots.now calls.old notices.old).taken }
    ensures state_after { state.new ≡ kept_state (run_over text.now state.old roots.now calls.old notices.old).taken (run_over text.now state.old roots.now calls.old notices.old).world.state state.old }
    ensures calls_after { calls.new ≡ (run_over text.now state.old roots.now calls.old notices.old).world.calls }
    ensures notices_after { notices.new ≡ (run_over text.now state.old roots.now calls.old notices.old).world.notices }
{
    let from = state_from(state);
    let listed = lower_list(text, from, roots, calls, notices);
    *taken = listed.taken;
    keep(listed.taken != 0, listed.state, state);
    tell_with(listed.answer, 0, figure)
}

// The record tape of a state: the number of the answer, and its figure.
fn tell_records(text: &[u8], state: State, target: &mut [u8], figure: &mut usize) -> u8
    ensures number { result ≡ number_by (records_answer (judge_records text.now state (length target.old))) }
    ensures figure_after { figure.new ≡ records_figure (records_answer (judge_records text.now state (length target.old))) }
    ensures target_after { target.new ≡ records_target target.old (judge_records text.now state (length target.old)) }
{
    tell(write_records(text, state, target), figure)
}

// Writes the record tape; the figure is how many bytes it has.
#[unsafe(no_mangle)]
pub extern "C" fn jsx_records(
    text: &[u8],
    state: &[u8],
    target: &mut [u8],
    figure: &mut usize,
) -> u8
    ensures number { result ≡ number_by (records_answer (records_over text.now state.now (length target.old))) }
    ensures figure_after { figure.new ≡ records_figure (records_answer (records_over text.now state.now (length target.old))) }
    ensures target_after { target.new ≡ records_target target.old (records_over text.now state.now (length target.old)) }
{
    tell_records(text, state_from(state), target, figure)
}

// The settings as they stand after the comments, at the front of the target; the figure is how many bytes they have, 46.
#[unsafe(no_mangle)]
pub extern "C" fn jsx_settings(
    text: &[u8],
    state: &[u8],
    target: &mut [u8],
    figure: &mut usize,
) -> u8
    ensures number { result ≡ number_by (records_answer (settings_over text.now state.now (length target.old))) }
    ensures figure_after { figure.new ≡ records_figure (records_answer (settings_over text.now state.now (length target.old))) }
    ensures target_after { target.new ≡ records_target target.old (settings_over text.now state.now (length target.old)) }
{
    tell(write_settings(text, state_from(state), target), figure)
}

// The text of the source that a B0 of the record tape names, at the front of the target; the figure is how many bytes it has.
#[unsafe(no_mangle)]
pub extern "C" fn jsx_source(
    text: &[u8],
    state: &[u8],
    source: u8,
    target: &mut [u8],
    figure: &mut usize,
) -> u8
    ensures number { result ≡ number_by (records_answer (source_over text.now state.now source (length target.old))) }
    ensures figure_after { figure.new ≡ records_figure (records_answer (source_over text.now state.now source (length target.old))) }
    ensures target_after { target.new ≡ records_target target.old (source_over text.now state.now source (length target.old)) }
{
    tell(
        write_source(text, state_from(state), source, target),
        figure,
    )
}

// How many bytes of the call target and of the notice target are filled: 0, or 12 where the bytes are no state's.
#[unsafe(no_mangle)]
pub extern "C" fn jsx_fills(state: &[u8], calls: &mut usize, notices: &mut usize) -> u8
    ensures number { result ≡ cond (is_some (unpacked state.now)) 0 12 }
    ensures calls_after { calls.new ≡ (state_from state.now).calls }
    ensures notices_after { notices.new ≡ (state_from state.now).notices }
{
    let told = unpack(state);
    let from = told.unwrap_or_else(no_state);
    *calls = from.calls;
    *notices = from.notices;
    told.map_or(FORGED, |_| 0)
}

// As many bytes as the calls of a root can take at the most: a target with that much room behind its fill takes the root in one pass. What the
// notices take at the most is the length of the tape.
#[unsafe(no_mangle)]
pub extern "C" fn jsx_call_room(tape: &[u8]) -> usize
    ensures room { result ≡ call_size_bound tape.now }
    ensures holds_calls { HoldsCalls tape.now result }
{
    call_size_bound(tape)
}

// How far a job came.
enum Stage {
    Opening,
    Roots,
    Records,
}

// A whole job: its opening, the roots of a list in turn, and its records, without a state in between. A refusal ends it: `stage` is 0 where that is the
// opening's, 1 where it is that of the root with the index `taken`, 2 where there is no room for the records, or where nothing was refused.
// kept: the C interface: how far the job came and what it filled go to lent places.
#[unsafe(no_mangle)]
pub extern "C" fn jsx_job(
    text: &[u8],
    job: &[u8],
    roots: &[u8],
    calls: &mut [u8],
    notices: &mut [u8],
    records: &mut [u8],
    stage: &mut usize,
    taken: &mut usize,
    call_fill: &mut usize,
    notice_fill: &mut usize,
    figure: &mut usize,
) -> u8
    ensures number { result ≡ (job_over text.now job.now roots.now calls.old notices.old records.old).number }
    ensures stage_after { stage.new ≡ (job_over text.now job.now roots.now calls.old notices.old records.old).stage }
    ensures taken_after { taken.new ≡ (job_over text.now job.now roots.now calls.old notices.old records.old).taken }
    ensures call_fill_after { call_fill.new ≡ (job_over text.now job.now roots.now calls.old notices.old records.old).world.state.calls }
    ensures notice_fill_after { notice_fill.new ≡ (job_over text.now job.now roots.now calls.old notices.old records.old).world.state.notices }
    ensures figure_after { figure.new ≡ (job_over text.now job.now roots.now calls.old notices.old records.old).figure }
    ensures calls_after { calls.new ≡ (job_over text.now job.now roots.now calls.old notices.old records.old).world.calls }
    ensures notices_after { notices.new ≡ (job_over text.now job.now roots.now calls.old notices.old records.old).world.notices }
    ensures records_after { records.new ≡ (job_over text.now job.now roots.now calls.old notices.old records.old).records }
    ensures served { (s : Settings) → judge_opening text.now job.now (length notices.old) ≡ accepted s → Served text.now s calls.old notices.old (take (job_over text.now job.now roots.now calls.old notices.old records.old).taken (roots_in roots.now)) (job_over text.now job.now roots.now calls.old notices.old records.old).world }
{
    let opening = open_job(text, job, notices);
    let opened = opening.answer;
    let from = opening.state;
    match opened {
        Err(_) => {
            *stage = Stage::Opening as usize;
            *taken = 0;
            *call_fill = from.calls;
            *notice_fill = from.notices;
            tell_with(opened, 0, figure)
        }
        Ok(()) => {
            let lowered = lower_list(text, from, roots, calls, notices);
            let told = lowered.answer;
            let next = lowered.state;
            *taken = lowered.taken;
            *call_fill = next.calls;
            *notice_fill = next.notices;
            match told {
                Err(_) => {
                    *stage = Stage::Roots as usize;
                    tell_with(told, 0, figure)
                }
                Ok(()) => {
                    *stage = Stage::Records as usize;
                    tell_records(text, next, records, figure)
                }
            }
        }
    }
}
