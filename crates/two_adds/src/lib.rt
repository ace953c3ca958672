// A list of calls as one function: a clearing and two adds. No program calls it. It is here so that demand 3, a claim about a list of calls, stands in the contract
// of compiled code too: proved from the contracts of the calls in its body, it shows that they fit together as the claim takes them.

#![tactic(auto)]

ghost use Rattle.settings.specs.Given.{as_given};
ghost use Rattle.files.specs.File.{as_file};
ghost use Rattle.two_adds.specs.TwoAdds.{AddsTwo};

use fasta::Numbers;
use files::SequenceFile;
use settings::{Refusal, Settings};

// The answers of a clearing and of two adds after it.
#[derive(Clone, Copy)]
pub struct Answers {
    pub cleared: Result<usize, Refusal>,
    pub first: Result<Numbers, Refusal>,
    pub second: Result<Numbers, Refusal>,
}

// Clears a table and adds two files, each of its kind, one after the other.
pub fn add_two(
    settings: &Settings,
    table: &mut [u32],
    one: &SequenceFile,
    other: &SequenceFile,
) -> Answers
    ensures { AddsTwo (as_given settings.now) table.old (as_file one.now) (as_file other.now) result
        table.new }
{
    let cleared = table::clear(settings, table);
    let first = table::add(settings, table, one);
    let second = table::add(settings, table, other);
    Answers {
        cleared,
        first,
        second,
    }
}
