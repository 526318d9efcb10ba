// From a root tape that was checked to calls and notices.
#![tactic(auto)]

pub mod jsx_impl;
