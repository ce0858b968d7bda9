// One site of a project: its values and the rules of each kind and field. What a record reads as and what the writer writes
// are defined in specs/, with both round trips; the crates site_reader and site_writer have the calls.
#![tactic(auto)]

pub mod kind;
pub mod numbers;
pub mod refusal;
pub mod rules;
pub mod values;
pub mod words;
