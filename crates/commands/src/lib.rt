// The commands of the opening tape and of the root tape: their codes, their sizes, and a reader for each place where commands may stand.
#![tactic(auto)]

pub mod codes;
pub mod error;
pub mod opening;
pub mod root;
pub mod sizes;
