// The encoding as document 01 and the paper have it: it has no function, only definitions (specs/) and theorems (proofs/). The calls are in `words`.

#![tactic(auto)]
