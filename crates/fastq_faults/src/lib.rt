// The first ground for refusing a FASTQ file: record by record, each from the places of its four lines. Searches for the end of a line and for a byte that
// may not stand in a text take 16 bytes at a time.

#![tactic(auto)]

ghost use Rattle.std.specs.Prelude.{◌≡◌, ◌+◌, ◌^◌, ◌<◌, length};
ghost use Rattle.settings.specs.Grounds.{fault_of};
ghost use Rattle.lines.specs.Lines.{lines};
ghost use Rattle.fastq.specs.Fastq.{fastq_fault};
ghost use Rattle.fastq_faults.specs.Needs.{quality_ground, text_ground, LinesAt, record_at};

use settings::Refusal;

// Grounds 16 and 17 of a record whose sequence text has `count` bytes, of its quality text, which stands at `at`.
fn quality_fault(count: usize, quality: &[u8], at: usize) -> Result<(), Refusal>
    requires { at + length quality.now < 2 ^ 64 }
    ensures { fault_of result ≡ quality_ground count at quality.now }
{
    if quality.len() != count {
        return Err(Refusal::QualityLength(at));
    }
    match lines::first_failing(quality, |b| (33..=126).contains(&b)) {
        Some(p) => Err(Refusal::QualityByte(at + p)),
        None => Ok(()),
    }
}

// Grounds 10, 16 and 17 of a record, of its sequence text, which stands at `from`, and its quality text, which stands at `at`.
fn text_fault(sequence: &[u8], from: usize, quality: &[u8], at: usize) -> Result<(), Refusal>
    requires { (from + length sequence.now < 2 ^ 64) × (at + length quality.now < 2 ^ 64) }
    ensures { fault_of result ≡ text_ground from sequence.now at quality.now }
{
    match lines::first_failing(sequence, |b| b.is_ascii_alphabetic()) {
        Some(p) => Err(Refusal::StrayByte(from + p)),
        None => quality_fault(sequence.len(), quality, at),
    }
}

// A record of a file: the places of its four lines and the place behind it. A line that the file lacks starts at the file's end.
#[derive(Drop)]
struct Record<'a> {
    file: &'a [u8],
    header: usize,
    sequence: usize,
    plus: usize,
    quality: usize,
    after: usize,
    ghost lines: { LinesAt file.now header sequence plus quality after },
}

impl<'a> Record<'a> {
    fn at(file: &'a [u8], header: usize) -> Record<'a>
        requires { header < length file.now }
        ensures file { result.file.now ≡ file.now }
        ensures header { result.header ≡ header }
    {
        let sequence = lines::after_line(file, header);
        let plus = lines::after_line(file, sequence);
        let quality = lines::after_line(file, plus);
        let after = lines::after_line(file, quality);
        Record {
            file,
            header,
            sequence,
            plus,
            quality,
            after,
        }
    }

    // Its first fault.
    fn fault(&self) -> Result<(), Refusal>
        ensures { fault_of result ≡ record_at self.now.file.now self.now.header self.now.sequence self.now.plus self.now.quality }
    {
        if !lines::byte_is(self.file, self.header, b'@') {
            return Err(Refusal::BadRecord(self.header));
        }
        if !lines::byte_is(self.file, self.plus, b'+') {
            return Err(Refusal::BadRecord(self.plus));
        }
        if self.after <= self.quality {
            return Err(Refusal::BadRecord(self.quality));
        }
        let to = lines::text_end(self.file, self.sequence, self.plus);
        let end = lines::text_end(self.file, self.quality, self.after);
        let sequence = &self.file[self.sequence..to];
        let quality = &self.file[self.quality..end];
        text_fault(sequence, self.sequence, quality, self.quality)
    }
}

// The first fault of a FASTQ file, record by record.
pub fn fastq_fault(file: &[u8]) -> Result<(), Refusal>
    ensures { fault_of result ≡ fastq_fault 0 (lines file.now) }
{
    let mut header: usize = 0;
    while header < file.len() {
        let record = Record::at(file, header);
        record.fault()?;
        header = record.after;
    }
    Ok(())
}
