// Records: the number of a thing among them, and the record tape written from them.
#![tactic(auto)]

pub mod finding;
mod groups;
pub mod record_tape;
