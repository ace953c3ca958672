// Loading a listing into a table (document 02, K7). The text is read twice: to its end for its first fault, and then, where it has none, for its counts, so that
// a refused call writes nothing.

#![tactic(auto)]

mod judge; // one line of a listing

ghost use Rattle.std.specs.Prelude.{◌≡◌, length, drop, set};
ghost use Rattle.std.specs.Iterator.{at_most};
ghost use Rattle.lines.specs.Lines.{lines};
ghost use Rattle.settings.specs.Given.{as_given};
ghost use Rattle.settings.specs.Grounds.{outcome_of, fault_of};
ghost use Rattle.tally_book.specs.Table.{class_count};
ghost use Rattle.loading.specs.Loading.{code_in, count_in, missing, text_fault, loaded_from, Loads};
ghost use Rattle.loader.specs.Needs.{ClassRead, SetsCounts, LoadsCounts, NextLine};

use judge::Judge;
use loading::Next;
use settings::{MOST_CLASSES, Refusal, Settings};

// The text's end, where a line may be missing.
fn at_end(next: Next, at: usize) -> Result<(), Refusal>
    ensures { fault_of result ≡ missing next at }
{
    match next {
        Next::Nothing => Ok(()),
        _ => Err(Refusal::BadLine(at)),
    }
}

// The lines of a text, each with its LF if it has one: what is left of the text.
#[derive(Drop)]
struct Lines<'a> {
    rest: &'a [u8],
}

impl<'a> Iterator for Lines<'a> {
    type Item = &'a [u8];

    ghost next_gives = { λ l line moved. NextLine l.rest.now line moved.rest.now };

    ghost remaining = { λ l. at_most (length l.rest.now) };

    fn next(&mut self) -> Option<&'a [u8]> {
        if self.rest.is_empty() {
            return None;
        }
        let (line, rest) = self.rest.split_at(lines::after_line(self.rest, 0));
        self.rest = rest;
        Some(line)
    }
}

// The first ground of a text, line by line.
fn text_fault(judge: &Judge, text: &[u8]) -> Result<(), Refusal>
    ensures { fault_of result ≡ text_fault (as_given judge.now.settings) text.now }
{
    let mut next = Next::Survey;
    let mut at: usize = 0;
    for line in (Lines { rest: text }) {
        next = judge.line(line, at, next)?;
        at += line.len();
    }
    at_end(next, at)
}

// Sets the count of the class that a line lists; the line is known to be a class's.
fn set_count(judge: &Judge, line: &[u8], counts: &mut [u32])
    requires { ClassRead (as_given judge.now.settings) line.now
        × (length counts.old ≡ class_count (as_given judge.now.settings)) }
    ensures { counts.new
        ≡ set counts.old (code_in (as_given judge.now.settings) line.now)
        (count_in judge.now.settings.k line.now) }
{
    let q = judge.word_in(line).code;
    counts[counts::place(q)] = judge.count_in(line) as u32;
}

// Sets the count of each class that a listing lists; the text is known to be one.
fn set_counts(judge: &Judge, text: &[u8], counts: &mut [u32])
    requires { SetsCounts text.now (as_given judge.now.settings) counts.old }
    ensures { counts.new
        ≡ loaded_from (as_given judge.now.settings) counts.old (drop 1 (lines text.now)) }
{
    let mut listing = Lines { rest: text };
    let _survey = listing.next();
    for line in listing {
        if shapes::is_total_line(line) {
            return;
        }
        set_count(judge, line, counts);
    }
}

// Loads a listing into counts, one a class, under settings that passed the check.
fn load_counts(judge: &Judge, counts: &mut [u32], text: &[u8]) -> Result<usize, Refusal>
    requires { length counts.old ≡ class_count (as_given judge.now.settings) }
    ensures { LoadsCounts (as_given judge.now.settings)
        text.now counts.old (outcome_of result) counts.new }
{
    text_fault(judge, text)?;
    let n = counts.len();
    counts[..n].fill(0);
    set_counts(judge, text, counts);
    Ok(n)
}

// Loads a listing into a table: its counts replace the old ones, 0 for a class not listed. Refused by the first of the grounds 1, 2, 4, 6 and 7, and then by
// that of the text's first line at fault, 20, 21 or 22.
pub fn load(settings: &Settings, table: &mut [u32], text: &[u8]) -> Result<usize, Refusal>
    ensures { Loads (as_given settings.now) text.now table.old (outcome_of result) table.new }
{
    let checked = settings.check()?;
    if checked.classes > MOST_CLASSES {
        return Err(Refusal::TooLarge);
    }
    let classes = checked.classes as usize;
    if table.len() < classes {
        return Err(Refusal::ShortBuffer(classes));
    }
    let judge = Judge::new(settings, checked);
    load_counts(&judge, &mut table[..classes], text)
}
