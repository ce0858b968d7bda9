// The exact factors of a site, each an exact fraction of 64-bit numbers: what the model's definition says, by its tables.
#![tactic(auto)]

pub mod access;
pub mod alignment;
pub mod coefficients;
pub mod crossings;
pub mod widths;
