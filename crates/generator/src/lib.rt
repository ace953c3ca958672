// The call that writes a test load (document 02, K8): letters are drawn from a state of 64 bits, which runs on from record to record.

#![tactic(auto)]

ghost use Rattle.std.specs.Prelude.{◌≡◌, ◌+◌, ◌*◌, ◌/◌, ◌%◌, ◌^◌, ◌≤◌, min, length};
ghost use Rattle.settings.specs.Given.{as_given};
ghost use Rattle.settings.specs.Grounds.{outcome_of};
ghost use Rattle.testload.specs.TestLoad.{stepped, drawn_rank, drawn_letters, in_lines, state_after, record_text, test_load, Generates};
ghost use Rattle.texts.specs.Needs.{Writes};
ghost use Rattle.generator.specs.Needs.{SomeLetters, records_length};

use settings::{Refusal, Settings};
use texts::Writer;

// a * b modulo 2^64, by halves of 32 bits: no product of halves wraps, and what is above 2^64 is left out.
// Stays: document 01 names this form, an own wrapping multiply helper with the supplied wrapping add.
fn wrapping_mul(a: u64, b: u64) -> u64
    ensures { result ≡ (a * b) % 2 ^ 64 }
{
    let a0 = a % 4294967296;
    let a1 = a / 4294967296;
    let b0 = b % 4294967296;
    let b1 = b / 4294967296;
    let crossed = (a1 * b0 % 4294967296 + a0 * b1 % 4294967296) % 4294967296;
    (a0 * b0).wrapping_add(crossed * 4294967296)
}

// The state after one letter more.
fn step(state: u64) -> u64
    ensures { result ≡ stepped state }
{
    let product = wrapping_mul(state, 6364136223846793005);
    product.wrapping_add(1442695040888963407)
}

// The rank of the letter that a state gives, of s letters.
fn rank_of_state(state: u64, s: u64) -> u64
    requires { s ≤ 16 }
    ensures { result ≡ drawn_rank s state }
{
    state / 4294967296 * s / 4294967296
}

// A letter for each place of a line; the state with which the next letter is drawn.
fn draw(line: &mut [u8], letters: &[u8], start: u64) -> u64
    requires { SomeLetters letters.now }
    ensures drawn { line.new ≡ drawn_letters letters.now (length line.old) start }
    ensures goes_on { result ≡ state_after (length line.old) start }
{
    let s = letters.len() as u64;
    let mut state = start;
    for place in line.iter_mut() {
        state = step(state);
        let rank = rank_of_state(state, s) as usize;
        *place = letters[rank];
    }
    state
}

// The letters of a line, 60 at most; the state with which the next letter is drawn. Where the buffer has all their places they are drawn there.
fn put_line(w: &mut Writer, letters: &[u8], n: usize, start: u64) -> u64
    requires letters { SomeLetters letters.now }
    requires short { n ≤ 60 }
    ensures line { Writes w.old w.new (drawn_letters letters.now n start) }
    ensures goes_on { result ≡ state_after n start }
{
    let at = w.at;
    if at < w.out.len() && n <= w.out.len() - at {
        let state = draw(&mut w.out[at..at + n], letters, start);
        w.at = at + n;
        return state;
    }
    // Stays: no heap, so letters for which the buffer has no places lie here.
    let mut places = [0u8; 60];
    let line = &mut places[..n];
    let state = draw(line, letters, start);
    w.put_text(line);
    state
}

// The letters of a record, in lines of 60; the state with which the next letter is drawn.
fn put_letters(w: &mut Writer, letters: &[u8], each: usize, start: u64) -> u64
    requires { SomeLetters letters.now }
    ensures lines { Writes w.old w.new (in_lines 0 (drawn_letters letters.now each start)) }
    ensures goes_on { result ≡ state_after each start }
{
    let mut state = start;
    let mut left = each;
    // Stays: a turn takes a line of letters, the last of which may be shorter.
    while left > 0 {
        let n = left.min(60);
        state = put_line(w, letters, n, state);
        w.put_text(b"\n");
        left -= n;
    }
    state
}

// A record: its header and its letters; the state with which the next letter is drawn.
fn put_record(w: &mut Writer, letters: &[u8], each: usize, number: u64, start: u64) -> u64
    requires { SomeLetters letters.now }
    ensures text { Writes w.old w.new (record_text letters.now each number start) }
    ensures goes_on { result ≡ state_after each start }
{
    w.put_field(b">", number);
    w.put_text(b"\n");
    put_letters(w, letters, each, start)
}

// All records.
fn put_records(w: &mut Writer, letters: &[u8], start: u64, records: usize, each: usize)
    requires { SomeLetters letters.now }
    ensures { Writes w.old w.new (test_load letters.now start records each) }
{
    let mut state = start;
    for i in 0..records {
        let number = i as u64 + 1;
        state = put_record(w, letters, each, number, state);
    }
}

// One byte above the most: what `needed_length` answers where already one record is too long.
const MORE_BYTES: usize = settings::MOST_BYTES + 1;

// The length of all records with so many letters each, where it is at most 16,777,216; else some number above that, since the sum stops there.
fn load_length(records: usize, each: usize) -> usize
    requires { each ≤ 16777216 }
    ensures { min result 16777217 ≡ min (records_length each 1 records) 16777217 }
{
    let besides = 2 + each + each.div_ceil(60);
    let mut sum: usize = 0;
    for i in 0..records {
        if sum > settings::MOST_BYTES {
            return sum;
        }
        sum += besides + texts::digit_count(i as u64 + 1);
    }
    sum
}

// The same for any number of letters: one record of more than 16,777,216 is too long by itself.
fn needed_length(records: usize, each: usize) -> usize
    ensures { min result 16777217 ≡ min (records_length each 1 records) 16777217 }
{
    if each <= settings::MOST_BYTES {
        load_length(records, each)
    } else if records == 0 {
        0
    } else {
        MORE_BYTES
    }
}

// Writes the test load to the start of the buffer. Refused by the first of the grounds 1, 2, 4, 6 and 7.
pub fn generate(
    settings: &Settings,
    start: u64,
    records: usize,
    each: usize,
    out: &mut [u8],
) -> Result<usize, Refusal>
    ensures { Generates (as_given settings.now) (test_load settings.now.letters.now start records each) out.old (outcome_of result) out.new }
{
    settings.check()?;
    let needed = needed_length(records, each);
    if needed > settings::MOST_BYTES {
        return Err(Refusal::TooLarge);
    }
    if out.len() < needed {
        return Err(Refusal::ShortBuffer(needed));
    }
    let mut w = Writer::new(out);
    put_records(&mut w, settings.letters, start, records, each);
    Ok(needed)
}
