// The store of imports and the record tape (module_imports.rs).
ghost use Rattle.std.specs.Prelude.{◌≡◌, length};
ghost use Rattle.definitions.specs.Entries.{judge_records, records_answer, records_target};
ghost use Rattle.store.specs.Adding.{added};

use crate::judging::judge_state;
use definitions::records::{Import, Record};
use definitions::state::State;
use records::finding::number_in;
use records::record_tape::write_tape;
use tape::refusal::Refusal;

// The first `count` of the records: what a job binds, in order of making.
#[derive(Clone, Copy)]
pub struct Store {
    // kept: a caller's state may tell any count, which is answered and not changed, so no `ArrayVec` can hold the records (docs/DECISIONS.md, 17)
    pub records: [Record; 8],
    pub count: u8,
}

impl Store {
    // Finds an import's record, or makes one behind the others. Gives the import's number, or none where there is none left: then the store stays as it was.
    pub fn add_import(&mut self, import: Import) -> Option<u8>
        ensures number { result ≡ (added self.old import).number }
        ensures store_after { self.new ≡ (added self.old import).store }
    {
        let binding = self.count;
        let count = usize::from(binding);
        if let Some(number) = number_in(self.records.get(..count)?, import) {
            return Some(number as u8);
        }
        if count == self.records.len() {
            return None;
        }
        self.records[count] = Record { import, binding };
        self.count = binding + 1;
        Some(binding)
    }
}

// The record tape into the target: refusals 1, 2, 12 and 10, in this order, leave the target as it is.
#[tactic(auto, unfolding(definitions::specs::Entries::judge_records, definitions::specs::Entries::records_answer, definitions::specs::Entries::records_target, crate::specs::Judging::behind))]
pub fn write_records(text: &[u8], state: State, target: &mut [u8]) -> Result<usize, Refusal>
    ensures value { result ≡ records_answer (judge_records text.now state (length target.old)) }
    ensures target_after { target.new ≡ records_target target.old (judge_records text.now state (length target.old)) }
{
    judge_state(text, state)?;
    write_tape(state.settings.mode, &state.records[..state.count], target)
}
