// Estimates of powers, exponentials and logarithms at every depth: definitions and laws, in specs/. There is no code here.
#![tactic(auto)]
