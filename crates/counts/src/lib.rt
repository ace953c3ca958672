// The counts, one a class: the highest of them, and one more or one less at each of some codes.

#![tactic(auto)]

ghost use Rattle.std.specs.Prelude.{◌≡◌, ◌≤◌, max, length};
ghost use Rattle.std.specs.List.{fold};
ghost use Rattle.tally_book.specs.Table.{changes, one_more, full};
ghost use Rattle.laws.specs.Each.{Each};
ghost use Rattle.tally_book.specs.Needs.{Below};
ghost use Rattle.counts.specs.declared.Way.TheVariants.{In, Out};
ghost use Rattle.counts.specs.Needs.{Fits, Changed};

use ranks::Code;

// Whether a file's windows are counted or taken away.
#[derive(Clone, Copy)]
pub enum Way {
    In,
    Out,
}

// The highest count, and 0 where there is none. There is no early end, so that several counts are compared at once.
fn highest(counts: &[u32]) -> u32
    ensures { result ≡ fold max 0 counts.now }
{
    counts.iter().fold(0, |most, &n| most.max(n))
}

// Ground 12: whether some count is above 4,294,967,295 less n.
pub fn too_full(counts: &[u32], n: usize) -> bool
    requires { n ≤ 4294967295 }
    ensures { result ≡ full n counts.now }
{
    settings::HIGHEST_COUNT as usize - n < highest(counts) as usize
}

// Where a class counts: at its code. A plain rank is no code, and indexes no table.
pub fn place(q: Code) -> usize
    ensures { result ≡ q.0 }
{
    q.0 as usize
}

// One more for each of some codes.
fn count_codes(counts: &mut [u32], codes: &[u64])
    requires fits { Fits codes.now counts.old }
    requires each { Each (Below (length counts.old)) codes.now }
    ensures { counts.new ≡ changes one_more counts.old codes.now }
{
    for &q in codes {
        counts[place(Code(q))] += 1;
    }
}

// One less for each of some codes, up to the first of whose class no count is left. Answers how many were taken.
fn take_codes(counts: &mut [u32], codes: &[u64]) -> usize
    requires { Each (Below (length counts.old)) codes.now }
    ensures { Changed Out counts.old codes.now result counts.new }
{
    for (i, &q) in codes.iter().enumerate() {
        let at = place(Code(q));
        if counts[at] == 0 {
            return i;
        }
        counts[at] -= 1;
    }
    codes.len()
}

// One more or one less for each of some codes; on the way out up to the first of whose class no count is left. Answers for how many.
// Stays: the step by `way`, which names the call too (`call_of`); a closure's contract over `Fits` and `Changed` would stand in each of four functions.
pub fn change_codes(counts: &mut [u32], codes: &[u64], way: Way) -> usize
    requires fits { way ≡ In → Fits codes.now counts.old }
    requires each { Each (Below (length counts.old)) codes.now }
    ensures { Changed way counts.old codes.now result counts.new }
{
    match way {
        Way::In => {
            count_codes(counts, codes);
            codes.len()
        }
        Way::Out => take_codes(counts, codes),
    }
}
