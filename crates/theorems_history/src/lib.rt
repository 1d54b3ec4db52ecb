// Demand 3 as a rule about any supervisor. There is no code here: specs/ has the rule, and proofs/ the theorem.
#![tactic(auto)]
