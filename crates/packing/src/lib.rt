// A job's state packed into bytes, and back.
#![tactic(auto)]

pub mod layout;
pub mod reading;
pub mod writing;
