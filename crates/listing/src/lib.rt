// The listing of a table: the survey line, a line for each class with a count, the total; written whole into a lent buffer.

#![tactic(auto)]

ghost use Rattle.std.specs.Prelude.{◌≡◌, ◌<◌, ◌≤◌, length};
ghost use Rattle.std.specs.Prelude.{None};
ghost use Rattle.settings.specs.Given.{as_given};
ghost use Rattle.settings.specs.Grounds.{outcome_of};
ghost use Rattle.settings.specs.Settings.{settings_ground};
ghost use Rattle.encoding.specs.Calls.{word_bytes};
ghost use Rattle.tally_book.specs.Table.{class_count};
ghost use Rattle.tally_book.specs.Demand.{sum};
ghost use Rattle.texts.specs.Needs.{Writes};
ghost use Rattle.listing.specs.Listing.{count_line, class_line, count_lines, total_line, listing_of, Lists};
ghost use Rattle.listing.specs.Needs.{AllCounts, ListsCounts, line_length, lines_length, longest};

use ranks::Code;
use settings::{Refusal, Settings};
use texts::Writer;

// The line of a word and its count.
fn put_count_line(w: &mut Writer, word: &[u8], n: u32)
    ensures { Writes w.old w.new (count_line word.now n) }
{
    w.put_text(b"(count ");
    w.put_text(word);
    w.put_field(b" ", n as u64);
    w.put_text(b")\n");
}

// The line of the class with code q, if it has a count.
fn put_class(w: &mut Writer, settings: &Settings, q: u64, n: u32)
    requires { (settings_ground (as_given settings.now) ≡ None) × (q < class_count (as_given settings.now)) }
    ensures { Writes w.old w.new (class_line (word_bytes (as_given settings.now) q) n) }
{
    if n > 0 {
        let mut word = [0u8; 64];
        // The settings are good and the class is there, so that nothing is refused.
        let _ = words::word_of(settings, Code(q), &mut word);
        put_count_line(w, &word[..settings.k], n);
    }
}

// The lines of the classes with a count above 0, by rising code.
fn put_counts(w: &mut Writer, settings: &Settings, counts: &[u32])
    requires { AllCounts (as_given settings.now) counts.now }
    ensures { Writes w.old w.new (count_lines (word_bytes (as_given settings.now)) 0 counts.now) }
{
    for (q, n) in counts.iter().enumerate() {
        put_class(w, settings, q as u64, *n);
    }
}

// The sum of the counts.
fn total(counts: &[u32]) -> u64
    requires { length counts.now ≤ 16777216 }
    ensures { result ≡ sum counts.now }
{
    counts.iter().map(|n| u64::from(*n)).sum()
}

// The listing's last line: the sum of the counts.
fn put_total(w: &mut Writer, counts: &[u32])
    requires { length counts.now ≤ 16777216 }
    ensures { Writes w.old w.new (total_line (sum counts.now)) }
{
    w.put_field(b"(total ", total(counts));
    w.put_text(b")\n");
}

// The listing of the counts of all classes. For `program`, past its checks: good settings and one count a class.
pub fn put_listing(w: &mut Writer, settings: &Settings, counts: &[u32])
    requires { AllCounts (as_given settings.now) counts.now }
    ensures writes { Writes w.old w.new (listing_of (as_given settings.now) counts.now) }
    ensures counts_len_bound { length (listing_of (as_given settings.now) counts.now) ≤ longest (length counts.now) }
{
    survey_writer::put_survey(w, settings, counts.len());
    put_counts(w, settings, counts);
    put_total(w, counts);
}

// The length of a class's line, its word having k letters.
fn line_length(k: usize, count: u32) -> usize
    requires { k ≤ 62 }
    ensures { result ≡ line_length k count }
{
    if count == 0 {
        0
    } else {
        10 + k + texts::digit_count(u64::from(count))
    }
}

// The length of the lines of all classes with a count, each word having k letters.
fn lines_length(k: usize, counts: &[u32]) -> usize
    requires { (k ≤ 62) × (length counts.now ≤ 16777216) }
    ensures { result ≡ lines_length k counts.now }
{
    let mut sum: usize = 0;
    for n in counts {
        sum += line_length(k, *n);
    }
    sum
}

// The length of the listing of the counts of all classes. No word is worked out for it, and nothing is written.
fn listing_length(settings: &Settings, counts: &[u32]) -> usize
    requires { AllCounts (as_given settings.now) counts.now }
    ensures { result ≡ length (listing_of (as_given settings.now) counts.now) }
{
    let mut w = Writer::new(&mut []);
    survey_writer::put_survey(&mut w, settings, counts.len());
    put_total(&mut w, counts);
    w.place() + lines_length(settings.k, counts)
}

// The listing of the counts of all classes, whole or, where the buffer is too short for it, not at all.
fn list_counts(settings: &Settings, counts: &[u32], text: &mut [u8]) -> Result<usize, Refusal>
    requires { AllCounts (as_given settings.now) counts.now }
    ensures { ListsCounts (listing_of (as_given settings.now) counts.now) text.old (outcome_of result) text.new }
{
    let needed = listing_length(settings, counts);
    if text.len() < needed {
        return Err(Refusal::ShortBuffer(needed));
    }
    let mut w = Writer::new(text);
    put_listing(&mut w, settings, counts);
    Ok(needed)
}

// Writes the listing of a table to the start of the text's buffer. Refused by the first of the grounds 1, 2, 4, 6 and 7.
pub fn list(settings: &Settings, table: &[u32], text: &mut [u8]) -> Result<usize, Refusal>
    ensures { Lists (as_given settings.now) table.now text.old (outcome_of result) text.new }
{
    let st = settings.check()?;
    if st.classes > settings::MOST_CLASSES {
        return Err(Refusal::TooLarge);
    }
    let classes = st.classes as usize;
    if table.len() < classes {
        return Err(Refusal::ShortBuffer(classes));
    }
    list_counts(settings, &table[..classes], text)
}
