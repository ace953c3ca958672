// The calls for C programs (include/kmer.h): word coding, code reading, mirroring, codes along a sequence, the number of classes, the table, its listing and
// loading one, and test loads, on numbers and slices.

#![tactic(auto)]

ghost use Rattle.std.specs.Prelude.{◌≡◌};
ghost use Rattle.files.specs.File.{file_of, as_file};
ghost use Rattle.counts.specs.Calls.{call_of};
ghost use Rattle.returned.specs.FileNumbers.{kind_of_number};
ghost use Rattle.settings.specs.Given.{the_settings, as_given};
ghost use Rattle.settings.specs.Grounds.{outcome_of};
ghost use Rattle.kmer.specs.FileCalls.{ClearsInto, AddsInto, WithdrawsInto};
ghost use Rattle.kmer.specs.Needs.{AnswersInto};
ghost use Rattle.encoding.specs.Calls.{coding};
ghost use Rattle.words.specs.Answers.{WritesWord, WritesMirror};
ghost use Rattle.returned.specs.Returned.{returned, returned_with_place, Returns};
ghost use Rattle.kmer.specs.Classes.{class_counting};
ghost use Rattle.kmer.specs.Loads.{LoadsInto, ListsInto};
ghost use Rattle.laws.specs.Text.{bytes};
ghost use Rattle.sequence.specs.Sequences.{FillsCodes};
ghost use Rattle.testload.specs.TestLoad.{test_load, Generates};

use counts::Way;
use files::SequenceFile;
use ranks::Code;
use settings::{Refusal, Settings};

// The code of a word. What a C program needs to know of each call is in include/kmer.h.
#[unsafe(no_mangle)]
pub extern "C" fn kmer_code(letters: &[u8], k: usize, mirror: u64, word: &[u8]) -> u64
    ensures { result ≡ returned (coding (the_settings letters.now k mirror) word.now) }
{
    let settings = Settings { letters, k, mirror };
    match words::code_of(&settings, word) {
        Ok(q) => q.0,
        Err(f) => returned::refused(f),
    }
}

// The canonical word of a code.
#[unsafe(no_mangle)]
pub extern "C" fn kmer_word(letters: &[u8], k: usize, mirror: u64, code: u64, out: &mut [u8]) -> u64
    ensures { Returns returned (λ answer. WritesWord (the_settings letters.now k mirror) code out.old answer out.new) result }
{
    let settings = Settings { letters, k, mirror };
    match words::word_of(&settings, Code(code), out) {
        Ok(n) => n as u64,
        Err(f) => returned::refused(f),
    }
}

// The mirror of a word.
#[unsafe(no_mangle)]
pub extern "C" fn kmer_mirror(
    letters: &[u8],
    k: usize,
    mirror: u64,
    word: &[u8],
    out: &mut [u8],
) -> u64
    ensures { Returns returned_with_place (λ answer. WritesMirror (the_settings letters.now k mirror) word.now out.old answer out.new) result }
{
    let settings = Settings { letters, k, mirror };
    returned::with_place(words::mirror_of(&settings, word, out))
}

// The codes of all windows along a sequence.
#[unsafe(no_mangle)]
pub extern "C" fn kmer_codes(
    letters: &[u8],
    k: usize,
    mirror: u64,
    sequence: &[u8],
    codes: &mut [u64],
) -> u64
    ensures { Returns returned_with_place (λ answer. FillsCodes (the_settings letters.now k mirror) sequence.now codes.old answer codes.new) result }
{
    let settings = Settings { letters, k, mirror };
    returned::with_place(sequence::codes(&settings, sequence, codes))
}

// The same for ACGT under complement, by two-bit numbers.
#[unsafe(no_mangle)]
pub extern "C" fn kmer_codes_two_bit(k: usize, sequence: &[u8], codes: &mut [u64]) -> u64
    ensures { Returns returned_with_place (λ answer. FillsCodes (the_settings (bytes "ACGT") k 1) sequence.now codes.old answer codes.new) result }
{
    returned::with_place(sequence::codes_two_bit(k, sequence, codes))
}

// The number of classes.
#[unsafe(no_mangle)]
pub extern "C" fn kmer_classes(letters: &[u8], k: usize, mirror: u64) -> u64
    ensures { result ≡ returned (class_counting (the_settings letters.now k mirror)) }
{
    let settings = Settings { letters, k, mirror };
    match settings.check() {
        Ok(checked) => checked.classes,
        Err(f) => returned::refused(f),
    }
}

// Clears a table.
#[unsafe(no_mangle)]
pub extern "C" fn kmer_clear(letters: &[u8], k: usize, mirror: u64, table: &mut [u32]) -> u64
    ensures { ClearsInto (the_settings letters.now k mirror) table.old result table.new }
{
    let settings = Settings { letters, k, mirror };
    returned::with_place(table::clear(&settings, table))
}

// An add or a withdrawal of a file of a kind; the file's five numbers go into the answer list, whose own ground 7 comes after the table's.
fn call_into(
    way: Way,
    settings: &Settings,
    table: &mut [u32],
    file: &SequenceFile,
    answer: &mut [u64],
) -> Result<usize, Refusal>
    ensures { AnswersInto (as_given settings.now) table.old (call_of way (as_file file.now)) answer.old (outcome_of result) table.new answer.new }
{
    table::ready(settings, table.len(), file.bytes)?;
    if answer.len() < 5 {
        return Err(Refusal::ShortBuffer(5));
    }
    let numbers = table::call(way, settings, table, file)?;
    returned::write_numbers(numbers, answer);
    Ok(5)
}

// Adds a file to a table; `fastq` names its kind.
#[unsafe(no_mangle)]
pub extern "C" fn kmer_add(
    letters: &[u8],
    k: usize,
    mirror: u64,
    table: &mut [u32],
    fastq: u64,
    file: &[u8],
    answer: &mut [u64],
) -> u64
    ensures { AddsInto (the_settings letters.now k mirror) table.old (file_of (kind_of_number fastq) file.now) answer.old result
        table.new answer.new }
{
    let settings = Settings { letters, k, mirror };
    let file = SequenceFile {
        kind: returned::kind_of_number(fastq),
        bytes: file,
    };
    returned::with_place(call_into(Way::In, &settings, table, &file, answer))
}

// Withdraws a file from a table; `fastq` names its kind.
#[unsafe(no_mangle)]
pub extern "C" fn kmer_withdraw(
    letters: &[u8],
    k: usize,
    mirror: u64,
    table: &mut [u32],
    fastq: u64,
    file: &[u8],
    answer: &mut [u64],
) -> u64
    ensures { WithdrawsInto (the_settings letters.now k mirror) table.old (file_of (kind_of_number fastq) file.now) answer.old result
        table.new answer.new }
{
    let settings = Settings { letters, k, mirror };
    let file = SequenceFile {
        kind: returned::kind_of_number(fastq),
        bytes: file,
    };
    returned::with_place(call_into(Way::Out, &settings, table, &file, answer))
}

// The listing of a table.
#[unsafe(no_mangle)]
pub extern "C" fn kmer_listing(
    letters: &[u8],
    k: usize,
    mirror: u64,
    table: &[u32],
    text: &mut [u8],
) -> u64
    ensures { ListsInto (the_settings letters.now k mirror) table.now text.old result text.new }
{
    let settings = Settings { letters, k, mirror };
    returned::with_place(listing::list(&settings, table, text))
}

// Loads a listing into a table.
#[unsafe(no_mangle)]
pub extern "C" fn kmer_load(
    letters: &[u8],
    k: usize,
    mirror: u64,
    table: &mut [u32],
    text: &[u8],
) -> u64
    ensures { LoadsInto (the_settings letters.now k mirror) text.now table.old result table.new }
{
    let settings = Settings { letters, k, mirror };
    match loader::load(&settings, table, text) {
        Ok(n) => n as u64,
        Err(f) => returned::refused_up_to(f),
    }
}

// Writes a test load.
#[unsafe(no_mangle)]
pub extern "C" fn kmer_generate(
    letters: &[u8],
    k: usize,
    mirror: u64,
    start: u64,
    records: usize,
    letters_each: usize,
    out: &mut [u8],
) -> u64
    ensures { Returns returned_with_place (λ answer. Generates (the_settings letters.now k mirror) (test_load letters.now start records letters_each) out.old answer out.new) result }
{
    let settings = Settings { letters, k, mirror };
    let answer = generator::generate(&settings, start, records, letters_each, out);
    returned::with_place(answer)
}
