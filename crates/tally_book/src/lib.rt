// What the calls on a table answer and leave, the tally book, and demand 3: no function, only definitions (specs/) and theorems (proofs/). The calls are in
// `table`.

#![tactic(auto)]
