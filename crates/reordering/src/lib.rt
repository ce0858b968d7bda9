// Two projects whose sites are the same in another order, and their reports: what is claimed of them and that it holds, in specs/.
// There is no code here.
#![tactic(auto)]
