// A list of roots, one after the other.
ghost use Rattle.std.specs.Prelude.{◌≡◌, List, ℕ, suc, ◌≤◌, length, take};
ghost use Rattle.definitions.specs.declared.options.Settings.{Settings};
ghost use Rattle.text.specs.Utf8.{first_ill};
ghost use Rattle.definitions.specs.Judging.{accepted};
ghost use Rattle.definitions.specs.Opening.{judge_opening};
ghost use Rattle.definitions.specs.Series.{opening, series};
ghost use Rattle.definitions.specs.Claim.{Kept};
ghost use Rattle.lowering.specs.Steps.{Going};
ghost use Rattle.lowering.specs.RootLists.{roots_from, roots_in, roots_by, Stands, ending, run_tested, run, ran};

use crate::{lower_root, lower_tape};
use definitions::state::State;
use store::forged::is_forged;
use tape::limits::MAX_LENGTH;
use tape::refusal::{Fault, Refusal};
use text::utf8::first_ill_formed;

// The root that begins a list, behind its length, and what follows it; none where the list is cut off before its end.
#[tactic(auto, using(crate::proofs::Listed::ahead_by))]
pub fn next_root(roots: &[u8]) -> Option<(&[u8], &[u8])>
    ensures roots_by { (most : ℕ) → roots_from (suc most) roots.now ≡ roots_by most result }
    ensures stands { Stands roots.now result }
{
    let [low, high, behind @ ..] = roots else {
        return None;
    };
    behind.split_at_checked(u16::from_le_bytes([*low, *high]) as usize)
}

// The roots of a list, each over the state that the last one left and the same targets; one that is refused changes nothing. Demand 3 holds of
// them over what an accepted opening left: its state, and its notices in their target.
pub fn lower_series(
    text: &[u8],
    state: State,
    roots: &[u8],
    calls: &mut [u8],
    notices: &mut [u8],
) -> State
    ensures state_after { result ≡ (series text.now (record { state = state; calls = calls.old; notices = notices.old }) (roots_in roots.now)).state }
    ensures calls_after { calls.new ≡ (series text.now (record { state = state; calls = calls.old; notices = notices.old }) (roots_in roots.now)).calls }
    ensures notices_after { notices.new ≡ (series text.now (record { state = state; calls = calls.old; notices = notices.old }) (roots_in roots.now)).notices }
    ensures kept { (job : List ℕ) (s : Settings) (target : List ℕ) → judge_opening text.now job (length target) ≡ accepted s → record { state = state; calls = calls.old; notices = notices.old } ≡ opening text.now s calls.old target → Kept text.now s calls.old target (roots_in roots.now) }
{
    let mut last = state;
    let mut rest = roots;
    while let Some((root, behind)) = next_root(rest) {
        last = lower_root(text, last, root, calls, notices).state;
        rest = behind;
    }
    last
}

// ---- up to the first root that is refused

// What a list comes to: the answer of the root that ended it, or of its end; the state that the roots before that left; how many they are.
#[derive(Clone, Copy)]
pub struct Listed {
    pub answer: Result<(), Refusal>,
    pub state: State,
    pub taken: usize,
}

// The answer behind the last whole root of a list.
fn list_end(size: usize, whole: usize) -> Result<(), Refusal>
    ensures { result ≡ ending size whole }
{
    if whole == size {
        return Ok(());
    }
    Err(Refusal::Tape(Fault::Grammar, size))
}

// The roots in turn, over a text and a state that are in order: behind each root that is accepted they are again, so neither is tested any more.
fn lower_in_turn(
    text: &[u8],
    state: State,
    roots: &[u8],
    calls: &mut [u8],
    notices: &mut [u8],
) -> Listed
    requires { Going text.now state (length calls.old) (length notices.old) }
    ensures { ran result calls.new notices.new ≡ run_tested text.now (record { state = state; calls = calls.old; notices = notices.old }) roots.now }
{
    let mut last = state;
    let mut rest = roots;
    // kept: the roots that were taken are counted, not bytes; a fold would carry the state, the rest and both targets through a closure
    let mut taken = 0;
    while let Some((root, behind)) = next_root(rest) {
        match lower_tape(text, last, root, calls, notices) {
            Ok(next) => {
                last = next;
                rest = behind;
                taken += 1;
            }
            Err(refusal) => {
                return Listed {
                    answer: Err(refusal),
                    state: last,
                    taken,
                };
            }
        }
    }
    Listed {
        answer: list_end(roots.len(), roots.len() - rest.len()),
        state: last,
        taken,
    }
}

// A list that is refused before its roots.
fn list_refused(state: State, refusal: Refusal) -> Listed
    ensures { result ≡ record { answer = Err refusal; state = state; taken = 0 } }
{
    Listed {
        answer: Err(refusal),
        state,
        taken: 0,
    }
}

// A text that is not too long and is UTF-8.
fn lower_list_if_unforged(
    text: &[u8],
    state: State,
    roots: &[u8],
    calls: &mut [u8],
    notices: &mut [u8],
) -> Listed
    requires text_len_bound { length text.now ≤ 65535 }
    requires text_value { first_ill text.now ≡ None }
    ensures { ran result calls.new notices.new ≡ run text.now (record { state = state; calls = calls.old; notices = notices.old }) roots.now }
{
    if is_forged(text, state, calls.len(), notices.len()) {
        return list_refused(state, Refusal::Forged);
    }
    lower_in_turn(text, state, roots, calls, notices)
}

// The roots of a list in turn, up to the first that is refused. Text and state are tested once, before the first of them and also where there is none.
// Demand 3 holds of the roots that were taken over what an accepted opening left: its state, and its notices in their target.
pub fn lower_list(
    text: &[u8],
    state: State,
    roots: &[u8],
    calls: &mut [u8],
    notices: &mut [u8],
) -> Listed
    ensures answer_value { result.answer ≡ (run text.now (record { state = state; calls = calls.old; notices = notices.old }) roots.now).answer }
    ensures taken_value { result.taken ≡ (run text.now (record { state = state; calls = calls.old; notices = notices.old }) roots.now).taken }
    ensures left { record { state = result.state; calls = calls.new; notices = notices.new } ≡ (run text.now (record { state = state; calls = calls.old; notices = notices.old }) roots.now).world }
    ensures left_by_series { record { state = result.state; calls = calls.new; notices = notices.new } ≡ series text.now (record { state = state; calls = calls.old; notices = notices.old }) (take result.taken (roots_in roots.now)) }
    ensures kept { (job : List ℕ) (s : Settings) (target : List ℕ) → judge_opening text.now job (length target) ≡ accepted s → record { state = state; calls = calls.old; notices = notices.old } ≡ opening text.now s calls.old target → Kept text.now s calls.old target (take result.taken (roots_in roots.now)) }
{
    if MAX_LENGTH < text.len() {
        return list_refused(state, Refusal::TooLong);
    }
    if let Some(place) = first_ill_formed(text) {
        return list_refused(state, Refusal::NotUtf8(place));
    }
    lower_list_if_unforged(text, state, roots, calls, notices)
}
