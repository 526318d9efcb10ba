// What every entry that writes from a state asks first.
ghost use Rattle.std.specs.Prelude.{◌≡◌, List, ℕ};
ghost use Rattle.definitions.specs.Judging.{Judged};
ghost use Rattle.definitions.specs.Entries.{judge_writing};
ghost use Rattle.store.specs.Judging.{behind};

use crate::forged::is_sound;
use definitions::state::State;
use tape::limits::MAX_LENGTH;
use tape::refusal::Refusal;
use text::utf8::first_ill_formed;

// The text and the state: refusals 1, 2 and 12, in this order.
pub fn judge_state(text: &[u8], state: State) -> Result<(), Refusal>
    ensures { (j : Judged (List ℕ)) → judge_writing text.now state j ≡ behind result j }
{
    if MAX_LENGTH < text.len() {
        return Err(Refusal::TooLong);
    }
    if let Some(place) = first_ill_formed(text) {
        return Err(Refusal::NotUtf8(place));
    }
    if !is_sound(text, state) {
        return Err(Refusal::Forged);
    }
    Ok(())
}
