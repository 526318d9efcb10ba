// Root tapes: the check against their grammar (docs/TAPES.md), and how far a part of a tape that was checked reaches.
#![tactic(auto)]

pub mod check;
pub mod skip;
