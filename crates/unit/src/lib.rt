// The calls that `unit_c` exports: numbers and lent runs of numbers only, none with a precondition.
#![tactic(auto)]

pub mod brackets;
mod lent;
pub mod lines;
pub mod projects;
pub mod sites;
mod slots;
pub mod writing;
