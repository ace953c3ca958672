// The survey line: what is printed, what is read, and that the reader takes just that; definitions and theorems, no function. The types here are what the
// functions of survey_forms and survey_reader answer, of which the definitions speak too.

#![tactic(auto)]

// The names of the three forms.
#[derive(Clone, Copy, PartialEq, Eq)]
pub enum Name {
    Letters,
    K,
    Mirror,
}

// A form that was read: its name, where the bytes of its value are, and the number that they stand for
// (k or the mirror; 0 for letters).
#[derive(Clone, Copy)]
pub struct Form {
    pub name: Name,
    pub from: usize,
    pub len: usize,
    pub number: u64,
}

// A survey line that was read: where its letters are, k, the mirror, and the place after the line's end.
#[derive(Clone, Copy)]
pub struct Survey {
    pub from: usize,
    pub len: usize,
    pub k: usize,
    pub mirror: u64,
    pub next: usize,
}
