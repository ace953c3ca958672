// The record reader: each record of a file as two offsets with lengths, from any offset. It takes any bytes and refuses nothing. First the scanner
// of a slice, then the reader over it, then the functions with plain parameters that use a reader.

#![tactic(auto)]

ghost use Rattle.std.specs.Prelude.{◌≡◌, ◌-◌, ◌<◌, ◌≤◌, length};
ghost use Rattle.std.specs.Iterator.{at_most};
ghost use Rattle.records.specs.Records.{
  parts_of,
  of_found,
  is_header,
  header_at,
  record_to,
  record_from,
  offset_after,
  record_number,
  Starts,
  Gives,
  Moves,
};

// A record as the offset and length of its header line and of what follows it.
#[derive(Clone, Copy)]
pub struct Record {
    pub header: usize,
    pub header_len: usize,
    pub body: usize,
    pub body_len: usize,
}

// The lent file with the offset reached. `new` starts at offset 0; a caller that wants another offset sets it.
#[derive(Clone, Copy)]
pub struct Reader<'a> {
    pub file: &'a [u8],
    pub at: usize,
}

// Whether a header starts at p: a > at the file's start or after LF.
#[tactic(auto, unfolding(crate::specs::Records::is_header))]
fn is_header(file: &[u8], p: usize) -> bool
    requires { p < length file.now }
    ensures { result ≡ is_header file.now p }
{
    file[p] == b'>' && (p == 0 || file[p - 1] == b'\n')
}

// The next header at or after an offset; where there is none the file's length, or the offset itself where that is past the end.
fn header_at(file: &[u8], at: usize) -> usize
    ensures { (result ≡ header_at file.now at) × (at ≤ result) }
{
    for i in at..file.len() {
        if is_header(file, i) {
            return i;
        }
    }
    at.max(file.len())
}

// The record whose header starts at h and whose header line's LF is at e, the file's length where the file's end cuts it off.
#[tactic(auto, unfolding(crate::specs::Records::record_to))]
fn record_to(file: &[u8], h: usize, e: usize) -> Record
    requires { (h < e) × (e ≤ length file.now) }
    ensures { parts_of result ≡ record_to file.now h e }
{
    if e == file.len() {
        return Record {
            header: h,
            header_len: e - h,
            body: e,
            body_len: 0,
        };
    }
    let end = if file[e - 1] == b'\r' { e - 1 } else { e };
    let body = e + 1;
    Record {
        header: h,
        header_len: end - h,
        body,
        body_len: header_at(file, body) - body,
    }
}

// The record of the next header at or after an offset, if there is one. Any bytes are taken.
fn record_at(file: &[u8], at: usize) -> Option<Record>
    ensures { of_found result ≡ record_from file.now at }
{
    let h = header_at(file, at);
    if h >= file.len() {
        return None;
    }
    let e = lines::line_end(file, h + 1);
    Some(record_to(file, h, e))
}

impl<'a> Reader<'a> {
    pub fn new(file: &'a [u8]) -> Reader<'a>
        ensures { Starts file.entry result }
    {
        Reader { file, at: 0 }
    }
}

// The record from the offset reached, which is moved to the record's end; where there is none it stays.
impl Iterator for Reader<'_> {
    type Item = Record;

    ghost next_gives = { λ r answer moved. Gives r (of_found answer) × Moves r moved };

    ghost remaining = { λ r. at_most (length r.file.now - r.at) };

    fn next(&mut self) -> Option<Record> {
        let record = record_at(self.file, self.at)?;
        self.at = record.body + record.body_len;
        Some(record)
    }
}

// What a reader at an offset gives.
pub fn read_from(file: &[u8], at: usize) -> Option<Record>
    ensures { of_found result ≡ record_from file.now at }
{
    Reader { file, at }.next()
}

// Where a reader at an offset is moved.
pub fn moved_from(file: &[u8], at: usize) -> usize
    ensures { result ≡ offset_after at (record_from file.now at) }
{
    let mut reader = Reader { file, at };
    let _ = reader.next();
    reader.at
}

// The record with the number n, from 0, if the file has one: a reader ends with the file's records, however large n is.
pub fn record_number(file: &[u8], n: usize) -> Option<Record>
    ensures { of_found result ≡ record_number file.now n }
{
    Reader::new(file).nth(n)
}
