// What the bench with lower bounds answered, this one answers. There is no code here: the theorems are in specs/.
#![tactic(auto)]
