// The test load (document 02, K8): no function, only definitions (specs/) and theorems (proofs/). The call that writes one is in `generator`.

#![tactic(auto)]
