// Lowering a root: refusals in their order (docs/TAPES.md, "Refusals"), then calls and notices into their targets.
#![tactic(auto)]

pub mod series;

ghost use Rattle.std.specs.Prelude.{◌≡◌, false, ◌≤◌, length, Ok};
ghost use Rattle.definitions.specs.Entries.{root_outcome};
ghost use Rattle.store.specs.Adding.{store_of};
ghost use Rattle.lowering.specs.Steps.{Text, Unforged, Ready, judge_tape, tape_outcome, answer_of, stepped, Comes};

use definitions::state::{State, Stepped};
use jsx::jsx_impl::lower;
use pen::pen::{Pen, Progress};
use root_check::check::check_root;
use size_bound::call_size_bound;
use store::forged::is_forged;
use store::module_imports::Store;
use tape::limits::MAX_LENGTH;
use tape::refusal::Refusal;
use text::utf8::first_ill_formed;

// A root's answer, with the state behind it: a refused root leaves it as it is.
fn stepped(state: State, after: Result<State, Refusal>) -> Stepped
    ensures { result ≡ stepped state after }
{
    match after {
        Ok(next) => Stepped {
            answer: Ok(()),
            state: next,
        },
        Err(refusal) => {
            let answer = Err(refusal);
            Stepped { answer, state }
        }
    }
}

// The store of a state's records.
fn store_of(state: State) -> Store
    requires { state.count ≤ 8 }
    ensures { result ≡ store_of state }
{
    let records = state.records;
    Store {
        records,
        count: state.count as u8,
    }
}

// Whether there is a number for each binding and room for each byte. Lowering into spare targets counts them.
fn fit(
    text: &[u8],
    state: State,
    tape: &[u8],
    call_room: usize,
    notice_room: usize,
) -> Result<(), Refusal>
    requires { Ready text.now state tape.now call_room notice_room }
    ensures { result ≡ answer_of (judge_tape text.now state tape.now call_room notice_room) }
{
    let mut spare = [0u8; 1];
    let mut spare_notices = [0u8; 1];
    let mut pen = Pen {
        calls: &mut spare,
        notices: &mut spare_notices,
        at: Progress {
            store: store_of(state),
            full: false,
            notices: 0,
            calls: 0,
        },
    };
    lower(text, &state.settings, tape, &mut pen);
    if pen.at.full {
        return Err(Refusal::Bindings);
    }
    if call_room - state.calls < pen.at.calls {
        return Err(Refusal::Space(pen.at.calls));
    }
    if notice_room - state.notices < pen.at.notices {
        return Err(Refusal::NoticeSpace(pen.at.notices));
    }
    Ok(())
}

// What fits, into the targets: the state behind it.
fn write(text: &[u8], state: State, tape: &[u8], calls: &mut [u8], notices: &mut [u8]) -> State
    requires ready { Ready text.now state tape.now (length calls.old) (length notices.old) }
    requires notices_value { answer_of (judge_tape text.now state tape.now (length calls.old) (length notices.old)) ≡ Ok tt }
    ensures { Comes (tape_outcome text.now state tape.now calls.old notices.old) (stepped state (Ok result)) calls.new notices.new }
{
    let mut pen = Pen {
        calls,
        notices,
        at: Progress {
            store: store_of(state),
            full: false,
            notices: state.notices,
            calls: state.calls,
        },
    };
    lower(text, &state.settings, tape, &mut pen);
    let records = pen.at.store.records;
    State {
        records,
        count: pen.at.store.count as usize,
        calls: pen.at.calls,
        notices: pen.at.notices,
        ..state
    }
}

// A tape that reads as a root.
fn lower_checked(
    text: &[u8],
    state: State,
    tape: &[u8],
    calls: &mut [u8],
    notices: &mut [u8],
) -> Result<State, Refusal>
    requires { Ready text.now state tape.now (length calls.old) (length notices.old) }
    ensures { Comes (tape_outcome text.now state tape.now calls.old notices.old) (stepped state result) calls.new notices.new }
{
    // where there is room for whatever the tape can give, nothing need be counted
    if call_size_bound(tape) <= calls.len() - state.calls {
        if tape.len() <= notices.len() - state.notices {
            return Ok(write(text, state, tape, calls, notices));
        }
    }
    fit(text, state, tape, calls.len(), notices.len())?;
    Ok(write(text, state, tape, calls, notices))
}

// A state that is not forged.
fn lower_tape(
    text: &[u8],
    state: State,
    tape: &[u8],
    calls: &mut [u8],
    notices: &mut [u8],
) -> Result<State, Refusal>
    requires { Unforged text.now state tape.now (length calls.old) (length notices.old) }
    ensures { Comes (tape_outcome text.now state tape.now calls.old notices.old) (stepped state result) calls.new notices.new }
{
    match check_root(text, tape) {
        Ok(()) => lower_checked(text, state, tape, calls, notices),
        Err(error) => Err(Refusal::Tape(error.fault, error.place)),
    }
}

// Text and tape are tested, then the state.
// kept: the text's two tests stand here and in `lower_list`, as the definitions judge them within two larger judgements; a function for both would need a third
fn lower_judged(
    text: &[u8],
    state: State,
    tape: &[u8],
    calls: &mut [u8],
    notices: &mut [u8],
) -> Result<State, Refusal>
    ensures { Comes (root_outcome text.now state tape.now calls.old notices.old) (stepped state result) calls.new notices.new }
{
    if MAX_LENGTH < text.len() {
        return Err(Refusal::TooLong);
    }
    if MAX_LENGTH < tape.len() {
        return Err(Refusal::TooLong);
    }
    if let Some(place) = first_ill_formed(text) {
        return Err(Refusal::NotUtf8(place));
    }
    if is_forged(text, state, calls.len(), notices.len()) {
        return Err(Refusal::Forged);
    }
    lower_tape(text, state, tape, calls, notices)
}

// The root's calls and notices behind those of the roots before it. Refusals 1, 2, 12, those of the tape, 9, 10 and 11, in this
// order, leave the state and both targets as they are.
pub fn lower_root(
    text: &[u8],
    state: State,
    tape: &[u8],
    calls: &mut [u8],
    notices: &mut [u8],
) -> Stepped
    ensures value { result ≡ (root_outcome text.now state tape.now calls.old notices.old).stepped }
    ensures calls_after { calls.new ≡ (root_outcome text.now state tape.now calls.old notices.old).calls }
    ensures notices_after { notices.new ≡ (root_outcome text.now state tape.now calls.old notices.old).notices }
{
    let after = lower_judged(text, state, tape, calls, notices);
    stepped(state, after)
}
