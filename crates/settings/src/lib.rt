// Opening a job: the options of the opening tape, what its comments change of them, and the settings that follow.
#![tactic(auto)]

pub mod jsx_impl;
pub mod opening;
