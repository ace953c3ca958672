// One line of a listing: what it says, and whether it is what belongs at its place.
ghost use Rattle.std.specs.Prelude.{◌≡◌, ◌+◌, ◌≤◌, min, length};
ghost use Rattle.settings.specs.Given.{as_given};
ghost use Rattle.settings.specs.RankTables.{RanksOf, rank_by_table};
ghost use Rattle.settings.specs.Settings.{settings_of};
ghost use Rattle.words.specs.Needs.{ranks_by};
ghost use Rattle.texts.specs.Needs.{Puts, Writes};
ghost use Rattle.survey.specs.Line.{survey_line};
ghost use Rattle.listing.specs.Listing.{total_line};
ghost use Rattle.loading.specs.Shapes.{same_text};
ghost use Rattle.loading.specs.declared.Next.TheVariants.{Survey, CountOrTotal};
ghost use Rattle.loading.specs.Loading.{code_in, canonical_in, count_in};
ghost use Rattle.loader.specs.Needs.{ForTable, Bounded, ClassLine, StepIs, is_right};

use codes::to_code::{WordCode, ranks_code};
use loading::Next;
use settings::{Checked, HIGHEST_COUNT, RankTable, Refusal, Settings};
use texts::Writer;
use words::letters::fill_ranks_by;

// What a listing's lines are judged by, made once a call: settings that passed the check, with few enough classes for a table, and the ranks of all bytes.
#[derive(Drop)]
pub struct Judge<'a> {
    pub settings: Settings<'a>,
    pub checked: Checked,
    pub ranks: RankTable,
    ghost table: { ForTable (as_given settings) },
    ghost derived: { checked ≡ settings_of (as_given settings) },
    ghost ranks_are: { RanksOf settings.letters.now ranks },
}

// The ranks of a word in lent places, looked up in a table.
fn word_ranks<'a>(table: &RankTable, word: &[u8], places: &'a mut [u64]) -> &'a [u64]
    requires { length word.now ≤ length places.old }
    ensures { result.now ≡ ranks_by (rank_by_table table.now) word.now }
{
    fill_ranks_by(table, word, places);
    &places[..word.len()]
}

// The total of a sum.
fn put_total(w: &mut Writer, sum: u64)
    ensures { Writes w.old w.new (total_line sum) }
{
    w.put_field(b"(total ", sum);
    w.put_text(b")\n");
}

// Writes the total of a sum to the start of out, and answers its length.
fn write_total(out: &mut [u8], sum: u64) -> usize
    ensures { Puts out.old out.new 0 result (total_line sum) }
{
    let mut total = Writer::new(out);
    put_total(&mut total, sum);
    total.place()
}

// Whether a line is the total of a sum.
fn is_total_of(line: &[u8], sum: u64) -> bool
    ensures { result ≡ same_text line.now (total_line sum) }
{
    // Stays: no heap, so the total is written to places of this function; it has at most 29 bytes.
    let mut buffer = [0u8; 32];
    let n = write_total(&mut buffer, sum);
    line == &buffer[..n]
}

// Whether what the line of a class says is right: its word is canonical, its code is at least `low`, its count is one that a place holds.
fn is_right(word: WordCode, n: u64, low: u64) -> bool
    ensures { result ≡ is_right word.canonical word.code.0 n low }
{
    word.canonical && low <= word.code.0 && 1 <= n && n <= HIGHEST_COUNT
}

impl<'a> Judge<'a> {
    pub fn new(settings: &Settings<'a>, checked: Checked) -> Judge<'a>
        requires table { ForTable (as_given settings.now) }
        requires derived { checked ≡ settings_of (as_given settings.now) }
        ensures { as_given result.settings ≡ as_given settings.now }
    {
        let ranks = RankTable::new(settings.letters);
        Judge {
            settings: *settings,
            checked,
            ranks,
        }
    }

    // The code of the word in a class's line, and whether the word is canonical.
    pub fn word_in(&self, line: &[u8]) -> WordCode
        requires { 7 + self.now.settings.k ≤ length line.now }
        ensures { (result.code.0 ≡ code_in (as_given self.now.settings) line.now)
            × (result.canonical ≡ canonical_in (as_given self.now.settings) line.now) }
    {
        // Stays: no heap; a word within the limits has at most 62 letters.
        let mut places = [0u64; 64];
        let word = &line[7..7 + self.settings.k];
        let ranks = word_ranks(&self.ranks, word, &mut places);
        ranks_code(ranks, self.checked.s, self.checked.mirror)
    }

    // The count in a class's line, as far as one above the highest.
    pub fn count_in(&self, line: &[u8]) -> u64
        requires { 10 + self.now.settings.k ≤ length line.now }
        ensures { result ≡ min (count_in self.now.settings.k line.now) 4294967296 }
    {
        shapes::number_upto(&line[8 + self.settings.k..line.len() - 2])
    }

    // The line of a class, by its shape, where one whose code is at least `low` belongs.
    fn class_line(&self, line: &[u8], at: usize, low: u64, sum: u64) -> Result<Next, Refusal>
        requires { Bounded (CountOrTotal low sum) × ClassLine self.now.settings.letters.now self.now.settings.k line.now }
        ensures { StepIs (as_given self.now.settings) (CountOrTotal low sum) at line.now result }
    {
        let word = self.word_in(line);
        let n = self.count_in(line);
        if !is_right(word, n, low) {
            return Err(Refusal::BadCount(at));
        }
        Ok(Next::CountOrTotal(word.code.0 + 1, sum + n))
    }

    // A line where the line of a class or the total belongs.
    fn count_line(&self, line: &[u8], at: usize, low: u64, sum: u64) -> Result<Next, Refusal>
        requires { Bounded (CountOrTotal low sum) }
        ensures { StepIs (as_given self.now.settings) (CountOrTotal low sum) at line.now result }
    {
        if shapes::is_total_line(line) {
            if !is_total_of(line, sum) {
                return Err(Refusal::BadCount(at));
            }
            return Ok(Next::Nothing);
        }
        if !shapes::is_count_line(self.settings.letters, self.settings.k, line) {
            return Err(Refusal::BadLine(at));
        }
        self.class_line(line, at, low, sum)
    }

    // Writes the survey line of the settings to the start of out, and answers its length.
    fn write_survey(&self, out: &mut [u8]) -> usize
        ensures { Puts out.old out.new 0 result (survey_line (as_given self.now.settings)) }
    {
        let mut own = Writer::new(out);
        survey_writer::put_survey(&mut own, &self.settings, self.checked.classes as usize);
        own.place()
    }

    // Whether a line is the survey line of the settings.
    fn is_own_survey(&self, line: &[u8]) -> bool
        ensures { result ≡ same_text line.now (survey_line (as_given self.now.settings)) }
    {
        // Stays: no heap, so the line is written to places of this function; within the limits it has at most 83 bytes.
        let mut buffer = [0u8; 128];
        let n = self.write_survey(&mut buffer);
        line == &buffer[..n]
    }

    // A line where the survey line belongs.
    fn survey_line(&self, line: &[u8], at: usize) -> Result<Next, Refusal>
        ensures { StepIs (as_given self.now.settings) Survey at line.now result }
    {
        if !shapes::is_survey_line(line) {
            return Err(Refusal::BadLine(at));
        }
        if !self.is_own_survey(line) {
            return Err(Refusal::OtherSettings(at));
        }
        Ok(Next::CountOrTotal(0, 0))
    }

    // The line at an offset, judged by what belongs there: what belongs behind it, or its fault.
    pub fn line(&self, line: &[u8], at: usize, next: Next) -> Result<Next, Refusal>
        requires { Bounded next }
        ensures { StepIs (as_given self.now.settings) next at line.now result }
    {
        match next {
            Next::Survey => self.survey_line(line, at),
            Next::CountOrTotal(low, sum) => self.count_line(line, at, low, sum),
            Next::Nothing => Err(Refusal::BadLine(at)),
        }
    }
}
