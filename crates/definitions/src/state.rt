// The state of a job, which the caller keeps between entries, and what the entries answer.
use crate::options::Settings;
use crate::records::{Import, Record};
use tape::refusal::Refusal;

// What stands in a state's records behind the first `count`, as long as nothing else was written there.
pub const NO_RECORDS: [Record; 8] = [Record {
    import: Import::FileName,
    binding: 0,
}; 8];

// The settings, the first `count` of the records, and how many bytes of the call target and of the notice target are filled.
// kept: a caller's state may tell any count and keeps what stands behind it, so neither an `ArrayVec` nor an array of options can hold it (docs/DECISIONS.md, 17)
#[derive(Clone, Copy)]
pub struct State {
    pub settings: Settings,
    pub records: [Record; 8],
    pub count: usize,
    pub calls: usize,
    pub notices: usize,
}

// What opening a job and lowering a root give back.
// kept: the state comes with a refusal too, unchanged, so it stands in neither side of the answer
#[derive(Clone, Copy)]
pub struct Stepped {
    pub answer: Result<(), Refusal>,
    pub state: State,
}
