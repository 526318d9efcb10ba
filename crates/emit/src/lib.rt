// Writing the parts of a call.
#![tactic(auto)]

pub mod brief;
pub mod context;
pub mod jsx_impl;
pub mod jsx_self;
pub mod jsx_source;
pub mod used;
