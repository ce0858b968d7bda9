// Wide unsigned arithmetic: the exact product of two words, the order of two products, and a * n / d rounded down and up.
#![tactic(auto)]

pub mod division;
pub mod order;
pub mod scale;
pub mod word;
