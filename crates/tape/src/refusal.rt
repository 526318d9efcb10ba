// Refusals by name, with the number and the figure of each: docs/TAPES.md, "Refusals".
ghost use Rattle.std.specs.Prelude.{◌≡◌, ◌+◌, ◌<◌, ◌^◌};
ghost use Rattle.tape.specs.Refusals.{fault_number, number_of, figure_of, fault_at};
ghost use Rattle.tape.specs.declared.refusal.Refusal.TheVariants.{Tape};

use crate::limits::{MAX_BINDINGS, MAX_LENGTH};

// The number that an entry without a refusal of its own answers.
pub const FORGED: u8 = 12;

// What can be wrong at a command of a tape, by its number.
#[derive(Clone, Copy)]
pub enum Fault {
    Grammar = 3,
    Outside = 4,
    Cuts = 13,
    EmptyName = 14,
    Depth = 6,
    Reference = 7,
    Position = 8,
}

impl Fault {
    #[tactic(auto, unfolding(crate::specs::Refusals::fault_number))]
    pub fn number(self) -> u8
        ensures { result ≡ fault_number self }
    {
        self as u8
    }
}

// Why an entry turned its input away: with a place in the text or on the tape, or with the bytes it would write.
#[derive(Clone, Copy)]
pub enum Refusal {
    TooLong,
    NotUtf8(usize),
    Tape(Fault, usize),
    PragmaByte(usize),
    Bindings,
    Space(usize),
    NoticeSpace(usize),
    Forged,
}

impl Refusal {
    #[tactic(auto, unfolding(crate::specs::Refusals::number_of))]
    pub fn number(self) -> u8
        ensures { result ≡ number_of self }
    {
        match self {
            Refusal::TooLong => 1,
            Refusal::NotUtf8(_) => 2,
            Refusal::Tape(fault, _) => fault.number(),
            Refusal::PragmaByte(_) => 5,
            Refusal::Bindings => 9,
            Refusal::Space(_) => 10,
            Refusal::NoticeSpace(_) => 11,
            Refusal::Forged => FORGED,
        }
    }

    #[tactic(auto, unfolding(crate::specs::Refusals::figure_of))]
    pub fn figure(self) -> usize
        ensures { result ≡ figure_of self }
    {
        match self {
            Refusal::TooLong => MAX_LENGTH,
            Refusal::NotUtf8(place) | Refusal::Tape(_, place) | Refusal::PragmaByte(place) => place,
            Refusal::Bindings => MAX_BINDINGS,
            Refusal::Space(size) | Refusal::NoticeSpace(size) => size,
            Refusal::Forged => 0,
        }
    }
}

// A fault, and the place that is told with it, counted from the front of what was read.
// The place stands first, where an `Ok` has its size: told from further on both grow alike.
#[derive(Clone, Copy)]
pub struct TapeError {
    pub place: usize,
    pub fault: Fault,
}

impl TapeError {
    // The same, counted from `at` bytes before.
    #[inline]
    pub fn behind(self, at: usize) -> TapeError
        requires { at + self.place < 2 ^ 64 }
        ensures { result ≡ fault_at self.fault (at + self.place) }
    {
        TapeError {
            place: at + self.place,
            ..self
        }
    }
}

impl From<TapeError> for Refusal {
    ghost from_gives = { λ e r. r ≡ Tape e.fault e.place };

    fn from(error: TapeError) -> Refusal {
        Refusal::Tape(error.fault, error.place)
    }
}
