// What an imported book gives the other calls. There is no code here: the theorems are in specs/.
#![tactic(auto)]
