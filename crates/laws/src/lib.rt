// The lowest layer: it has no function, only definitions (specs/) and laws (proofs/) of numbers, lists, texts, windows
// and tests, which know nothing of the settings.

#![tactic(auto)]
