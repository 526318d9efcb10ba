// The types of settings, records and state, the codes of what is written, and in specs/ the definitions of all that the product claims.
#![tactic(auto)]

pub mod call_tape;
pub mod options;
pub mod reading;
pub mod record_tape;
pub mod records;
pub mod state;
