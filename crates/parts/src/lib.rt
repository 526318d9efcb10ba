// What the recursion of lowering asks of the tape, and text children.
#![tactic(auto)]

pub mod jsx_impl;
