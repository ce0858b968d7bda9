// The road model of FHWA-RD-99-207 as document 01 states it: definitions and their laws, in specs/. There is no code here yet.
#![tactic(auto)]
