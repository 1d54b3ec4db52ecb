// No code: definitions and theorems about the states that sequences of calls reach.
#![tactic(auto)]
