// Sequence files of both kinds: the kind, and the scan of a file, which answers its five numbers or the first ground for refusing it.

#![tactic(auto)]

ghost use Rattle.std.specs.Prelude.{◌≡◌, ◌≤◌, length};
ghost use Rattle.lines.specs.Lines.{lines};
ghost use Rattle.settings.specs.Given.{as_given};
ghost use Rattle.settings.specs.Grounds.{outcome, outcome_of};
ghost use Rattle.settings.specs.Settings.{rank_in};
ghost use Rattle.settings.specs.RankTables.{rank_by_table};
ghost use Rattle.fasta.specs.declared.Mode.TheVariants.{FastqStart};
ghost use Rattle.fasta.specs.Items.{numbers_in};
ghost use Rattle.fasta.specs.File.{items_from};
ghost use Rattle.fastq.specs.Fastq.{fastq_fault};
ghost use Rattle.files.specs.File.{as_file, start_of, file_fault, file_numbers};
ghost use Rattle.files.specs.Scan.{scan_ground};

use fasta::{Mode, Numbers};
use settings::{RankTable, Refusal, Settings};

// The kinds of sequence file.
#[derive(Clone, Copy)]
pub enum Kind {
    Fasta,
    Fastq,
}

// A sequence file as a call is handed it: its kind, which the caller names, and its bytes.
#[derive(Clone, Copy)]
pub struct SequenceFile<'a> {
    pub kind: Kind,
    pub bytes: &'a [u8],
}

// A FASTQ file that is not too long, for settings that were checked: its numbers, or its first fault.
fn scan_fastq(file: &[u8], ranks: &RankTable, k: usize) -> Result<Numbers, Refusal>
    requires { (length file.now ≤ 16777216) × (1 ≤ k) }
    ensures { outcome_of result
        ≡ outcome (fastq_fault 0 (lines file.now)) (numbers_in (rank_by_table ranks.now) k (items_from FastqStart file.now)) }
{
    fastq_faults::fastq_fault(file)?;
    fasta::scan_items(file, Mode::FastqStart, ranks, k)
}

// Where the first byte of a file stands.
pub fn start_of(kind: Kind) -> Mode
    ensures { result ≡ start_of kind }
{
    match kind {
        Kind::Fasta => Mode::Start,
        Kind::Fastq => Mode::FastqStart,
    }
}

// A file of either kind that is not too long, for settings that were checked: its numbers, or its first fault.
pub fn scan_file(file: &SequenceFile, ranks: &RankTable, k: usize) -> Result<Numbers, Refusal>
    requires { (length file.now.bytes.now ≤ 16777216) × (1 ≤ k) }
    ensures { outcome_of result
        ≡ outcome (file_fault (as_file file.now)) (file_numbers (rank_by_table ranks.now) k (as_file file.now)) }
{
    match file.kind {
        Kind::Fasta => fasta::scan_items(file.bytes, Mode::Start, ranks, k),
        Kind::Fastq => scan_fastq(file.bytes, ranks, k),
    }
}

// A file's five numbers, or the first ground that applies: 1, 2, 4, then 6, then 10 or 11, of FASTQ 15, 10, 16 or 17.
pub fn scan(file: &SequenceFile, settings: &Settings) -> Result<Numbers, Refusal>
    ensures { outcome_of result
        ≡ outcome (scan_ground (as_given settings.now) (as_file file.now))
        (file_numbers (rank_in settings.now.letters.now) settings.now.k (as_file file.now)) }
{
    settings.check()?;
    if file.bytes.len() > settings::MOST_BYTES {
        return Err(Refusal::TooLarge);
    }
    let ranks = RankTable::new(settings.letters);
    scan_file(file, &ranks, settings.k)
}
