// Loading a listing (document 02, K7): what a text answers and what counts it leaves, and the theorems of it. No function, only definitions (specs/), the
// type that they share with the functions, and theorems (proofs/). The call is in `loader`.

#![tactic(auto)]

// What belongs next in a listing: the survey line; the line of a class whose code is at least the first number, or the total of counts that so far add up to
// the second; no line.
#[derive(Clone, Copy)]
pub enum Next {
    Survey,
    CountOrTotal(u64, u64),
    Nothing,
}
