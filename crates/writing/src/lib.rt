// What the text of a book is, and what reading it back gives. There is no code here: the definitions and theorems are in specs/.
#![tactic(auto)]
