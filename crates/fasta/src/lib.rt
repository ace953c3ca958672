// Sequence files, FASTA and FASTQ: what each byte is by the place in its line, and the five numbers of a file's bytes or the first that may not stand
// where it does. The lines and qualities of FASTQ are judged in `files`, which also knows the kind of a file.

#![tactic(auto)]

ghost use Rattle.std.specs.Prelude.{◌≡◌, false, ◌+◌, ◌<◌, ◌≤◌, length, get_or, drop};
ghost use Rattle.settings.specs.Grounds.{outcome, outcome_of};
ghost use Rattle.settings.specs.RankTables.{rank_by_table};
ghost use Rattle.fasta.specs.File.{lf_next, line_item, item, next, items_from, fault_from};
ghost use Rattle.fasta.specs.Items.{numbers_in};
ghost use Rattle.fasta.specs.Needs.{is_passed_over, with_letter, took, Small, Skips};

use settings::{RankTable, Refusal};

// Where in its line a byte stands. FASTA's are Start, at a line's start, and Header or Sequence, later in a line, by the line's first byte. FASTQ's are
// FastqStart, at a record's start, FastqHeader, later in its header line, and the other three, in its second, third and fourth line.
#[derive(Clone, Copy)]
pub enum Mode {
    Start,
    Header,
    Sequence,
    FastqStart,
    FastqHeader,
    FastqSequence,
    FastqPlus,
    FastqQuality,
}

// What a byte of a file is: the > or @ that opens a record, a byte that counts for nothing, a stray byte, a letter.
#[derive(Clone, Copy)]
pub enum Item {
    Opens,
    Skip,
    Stray,
    Letter(u8),
}

// A file's records, letters (foreign ones too), foreign letters, and the edge letters and windows of all its runs.
#[derive(Clone, Copy, Default)]
pub struct Numbers {
    pub records: usize,
    pub letters: usize,
    pub foreign: usize,
    pub edge: usize,
    pub windows: usize,
}

// The numbers of what was scanned, and the length of the present run.
#[derive(Clone, Copy, Default)]
struct Scanned {
    numbers: Numbers,
    run: usize,
}

// The byte at i, as one of a sequence line. Only a CR asks for the byte after it.
// Stays: document 01 names this form, a match on the byte with ranges.
#[tactic(auto, using(lines::proofs::Lines::lf_is_next), unfolding(crate::specs::File::line_item, crate::specs::File::is_letter))]
fn line_item(file: &[u8], i: usize) -> Item
    requires { i < length file.now }
    ensures { result ≡ line_item (get_or file.now i 0) (lf_next (drop (i + 1) file.now)) }
{
    let b = file[i];
    match b {
        b'A'..=b'Z' | b'a'..=b'z' => Item::Letter(b),
        b'\n' => Item::Skip,
        b'\r' if lines::byte_is(file, i + 1, b'\n') => Item::Skip,
        _ => Item::Stray,
    }
}

impl Mode {
    // What the byte at i is. For `batches` too; i lies inside the file.
    #[tactic(auto, unfolding(crate::specs::File::item))]
    pub fn item_at(self, file: &[u8], i: usize) -> Item
        requires { i < length file.now }
        ensures { result ≡ item self (get_or file.now i 0) (lf_next (drop (i + 1) file.now)) }
    {
        match self {
            Mode::Start if file[i] == b'>' => Item::Opens,
            Mode::FastqStart => Item::Opens,
            Mode::Start | Mode::Sequence | Mode::FastqSequence => line_item(file, i),
            _ => Item::Skip,
        }
    }

    // Whether the mode's bytes are passed over, up to the line's LF: in a header line behind its first byte, in a + line and in a quality line.
    fn is_passed_over(self) -> bool
        ensures { result ≡ is_passed_over self }
    {
        matches!(
            self,
            Mode::Header | Mode::FastqHeader | Mode::FastqPlus | Mode::FastqQuality
        )
    }

    // The place behind the bytes from a place on that the mode passes over; that place itself where it passes over none. For `batches` too.
    pub fn pass_over(self, file: &[u8], from: usize) -> usize
        requires { from ≤ length file.now }
        ensures { Skips file.now self from result }
    {
        if self.is_passed_over() {
            lines::line_end(file, from)
        } else {
            from
        }
    }

    // The mode at the start of the next line.
    #[tactic(auto, unfolding(crate::specs::File::next))]
    fn after_line(self) -> Mode
        ensures { result ≡ next self 10 }
    {
        match self {
            Mode::Start | Mode::Header | Mode::Sequence => Mode::Start,
            Mode::FastqStart | Mode::FastqHeader => Mode::FastqSequence,
            Mode::FastqSequence => Mode::FastqPlus,
            Mode::FastqPlus => Mode::FastqQuality,
            Mode::FastqQuality => Mode::FastqStart,
        }
    }

    // Where the byte after b stands. For `batches` too.
    #[tactic(auto, unfolding(crate::specs::File::next))]
    pub fn next(self, b: u8) -> Mode
        ensures { result ≡ next self b }
    {
        match self {
            _ if b == b'\n' => self.after_line(),
            Mode::Start if b == b'>' => Mode::Header,
            Mode::Start => Mode::Sequence,
            Mode::FastqStart => Mode::FastqHeader,
            _ => self,
        }
    }
}

impl Scanned {
    // One letter more, with its rank if it is no foreign one.
    #[tactic(auto, unfolding(crate::specs::Needs::with_letter))]
    fn add_letter(&mut self, rank: Option<u8>, k: usize)
        requires { Small 16777216 self.old }
        ensures { self.new ≡ with_letter k self.old rank }
    {
        self.numbers.letters += 1;
        if rank.is_none() {
            self.numbers.foreign += 1;
            self.run = 0; // no window runs over a foreign letter
            return;
        }
        self.run += 1;
        if k <= self.run {
            self.numbers.windows += 1;
        } else {
            self.numbers.edge += 1;
        }
    }

    // One item more, that of the byte at a place; or the fault that the item is.
    fn with_item(
        mut self,
        it: Item,
        at: usize,
        ranks: &RankTable,
        k: usize,
    ) -> Result<Scanned, Refusal>
        requires { Small 16777216 self }
        ensures { outcome_of result ≡ took (rank_by_table ranks.now) k at self it }
    {
        match it {
            Item::Skip => {}
            Item::Stray => return Err(Refusal::StrayByte(at)),
            Item::Opens => {
                self.numbers.records += 1;
                self.run = 0; // no window runs over a record's end
            }
            Item::Letter(b) => {
                if self.numbers.records == 0 {
                    return Err(Refusal::EarlyLetter(at));
                }
                self.add_letter(ranks.rank(b), k);
            }
        }
        Ok(self)
    }
}

// One pass over the items of a file that is not too long, from a mode on: its numbers, or its first fault.
pub fn scan_items(file: &[u8], start: Mode, ranks: &RankTable, k: usize) -> Result<Numbers, Refusal>
    requires { (length file.now ≤ 16777216) × (1 ≤ k) }
    ensures { outcome_of result
        ≡ outcome (fault_from false 0 (items_from start file.now))
        (numbers_in (rank_by_table ranks.now) k (items_from start file.now)) }
{
    let mut mode = start;
    let mut scanned = Scanned::default();
    let mut i: usize = 0;
    // Stays: the place goes past all bytes that a mode passes over, whose end is found 16 bytes at a time.
    while i < file.len() {
        let e = mode.pass_over(file, i);
        if e == file.len() {
            break;
        }
        scanned = scanned.with_item(mode.item_at(file, e), e, ranks, k)?;
        mode = mode.next(file[e]);
        i = e + 1;
    }
    Ok(scanned.numbers)
}
