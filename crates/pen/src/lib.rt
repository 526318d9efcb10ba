// Writing calls and notices, command by command.
#![tactic(auto)]

pub mod diagnostics;
pub mod pen;
pub mod strings;
