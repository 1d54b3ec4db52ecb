// A second supervisor: history's toy in its sound make comes to demand 3 by a record of laws of its own. There is no code here.
#![tactic(auto)]
