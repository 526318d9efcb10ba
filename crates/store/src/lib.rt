// What a job binds: the store of imports, writing its records, and which states are forged.
#![tactic(auto)]

pub mod forged;
pub mod judging;
pub mod module_imports;
