// What follows from the definitions of the logic. There is no code here: the theorems are in specs/.
#![tactic(auto)]
