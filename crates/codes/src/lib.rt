// The code of a word of ranks, and the word of ranks with a code. Letters and refusals are for the crates above.

#![tactic(auto)]

pub mod to_code; // from a word to its code
pub mod to_word; // from a code to its word
