// Lent runs of numbers, and laws of lists, tests and tables that belong to no layer, in specs/. There is no code here.
#![tactic(auto)]
