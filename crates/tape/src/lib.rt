// Tapes: numbers on them, refusals, and writing into a lent target.
#![tactic(auto)]

pub mod limits;
pub mod numbers;
pub mod refusal;
pub mod target;
