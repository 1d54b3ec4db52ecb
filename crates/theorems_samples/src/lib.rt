// What became of each Hall sample, and where the position moved, as theorems about calls and answers: see specs/ for what they say and
// proofs/ for why they hold. There is no code here.
#![tactic(auto)]
