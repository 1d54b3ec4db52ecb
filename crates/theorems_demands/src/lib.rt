// The customer's demands of this drive, as theorems about its calls: see specs/ for what they say and proofs/ for why they hold.
// There is no code here.
#![tactic(auto)]
