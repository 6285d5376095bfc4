// Demand 2 over bytes: an assignment and its model. There is no code here: the theorems are in specs/.
#![tactic(auto)]
