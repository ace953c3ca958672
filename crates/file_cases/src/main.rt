// Runs test cases from standard input, one a line, and answers each with one line:
//   scan LETTERS K MIRROR FILE    of a FASTA file: taken, with its records, letters, foreign, edge and windows; or refused, with number and P
//   fastq LETTERS K MIRROR FILE   the same of a FASTQ file
//   read OFFSET FILE              what a reader of the file at the offset gives: record, with the offset and length of its header line and of what
//                                 follows, or none; then the offset where it is moved
//   nth NUMBER FILE               the same of the record with the number, from 0, without an offset
//   # ..                          copied, to say what the next cases are about
// A line under six bytes is skipped.
// FILE is the rest of the line: \n is LF, \r is CR, \xHH is any byte, and every other byte stands for itself.

#![tactic(auto)]

ghost use Rattle.std.specs.Prelude.{◌≡◌, ◌<◌, ◌≤◌, length, IfOk};

use fasta::Numbers;
use files::{Kind, SequenceFile};
use records::Record;
use settings::{Refusal, Settings};
use std::io::{self, Read, Write};

// The value of a hexadecimal digit, 0 to 9 or a to f; 0 for every other byte.
fn digit(b: u8) -> u8
    ensures { result < 16 }
{
    match b {
        b'0'..=b'9' => b - b'0',
        b'a'..=b'f' => b - b'a' + 10,
        _ => 0,
    }
}

// A decimal number, below 10^12: once it is 99,999,999,990 or more, the digits that are left are not read. Each byte counts as `digit` says.
fn decimal(s: &[u8]) -> usize
    ensures { result < 1000000000000 }
{
    let mut n: usize = 0;
    for b in s {
        if n >= 99999999990 {
            break;
        }
        n = n * 10 + digit(*b) as usize;
    }
    n
}

// The byte that a text begins with, and the text behind it; a backslash before anything but x and two bytes, n or r stands for itself.
fn first_byte(s: &[u8]) -> Option<(u8, &[u8])> {
    match s {
        [] => None,
        [b'\\', b'x', high, low, rest @ ..] => Some((digit(*high) * 16 + digit(*low), rest)),
        [b'\\', b'n', rest @ ..] => Some((b'\n', rest)),
        [b'\\', b'r', rest @ ..] => Some((b'\r', rest)),
        [b, rest @ ..] => Some((*b, rest)),
    }
}

// The file that a text stands for, at the start of out; its length.
fn unescape(s: &[u8], out: &mut [u8]) -> usize
    ensures { (result ≤ length out.new) × (length out.new ≡ length out.old) }
{
    let mut rest = s;
    let mut n = 0;
    for place in out.iter_mut() {
        let Some((byte, behind)) = first_byte(rest) else {
            break;
        };
        *place = byte;
        rest = behind;
        n += 1;
    }
    n
}

fn put_scanned<W: Write>(out: &mut W, r: Result<Numbers, Refusal>) -> io::Result<()> {
    match r {
        Ok(n) => writeln!(
            out,
            "taken {} {} {} {} {}",
            n.records, n.letters, n.foreign, n.edge, n.windows
        ),
        Err(f) => writeln!(out, "refused {} {}", f.number(), f.place()),
    }
}

fn put_found<W: Write>(out: &mut W, found: Option<Record>) -> io::Result<()> {
    match found {
        Some(r) => write!(
            out,
            "record {} {} {} {}",
            r.header, r.header_len, r.body, r.body_len
        ),
        None => write!(out, "none"),
    }
}

// A text up to its first space, and what is behind it; the whole text where it has no space.
fn field(s: &[u8]) -> (&[u8], &[u8]) {
    match s.iter().position(|b| *b == b' ') {
        Some(end) => (&s[..end], &s[end + 1..]),
        None => (s, &[]),
    }
}

fn scan_case<W: Write>(out: &mut W, kind: Kind, s: &[u8], file: &mut [u8]) -> io::Result<()> {
    let (letters, s) = field(s);
    let (k, s) = field(s);
    let (mirror, s) = field(s);
    let n = unescape(s, file);
    let settings = Settings {
        letters,
        k: decimal(k),
        mirror: decimal(mirror) as u64,
    };
    let scanned = files::scan(
        &SequenceFile {
            kind,
            bytes: &file[..n],
        },
        &settings,
    );
    put_scanned(out, scanned)
}

fn read_case<W: Write>(out: &mut W, s: &[u8], file: &mut [u8]) -> io::Result<()> {
    let (at, s) = field(s);
    let at = decimal(at);
    let n = unescape(s, file);
    put_found(out, records::read_from(&file[..n], at))?;
    writeln!(out, " after {}", records::moved_from(&file[..n], at))
}

fn nth_case<W: Write>(out: &mut W, s: &[u8], file: &mut [u8]) -> io::Result<()> {
    let (number, s) = field(s);
    let n = unescape(s, file);
    put_found(out, records::record_number(&file[..n], decimal(number)))?;
    writeln!(out)
}

// One line: one under six bytes is skipped, one that begins with s, f, r or n is run as a case, every other is copied.
fn case<W: Write>(out: &mut W, s: &[u8], file: &mut [u8]) -> io::Result<()> {
    if s.len() < 6 {
        return Ok(());
    }
    match s[0] {
        b's' => scan_case(out, Kind::Fasta, &s[5..], file),
        b'f' => scan_case(out, Kind::Fastq, &s[6..], file),
        b'r' => read_case(out, &s[5..], file),
        b'n' => nth_case(out, &s[4..], file),
        _ => {
            out.write_all(s)?;
            writeln!(out)
        }
    }
}

fn cases<W: Write>(out: &mut W, s: &[u8], file: &mut [u8]) -> io::Result<()> {
    for line in s.split(|b| *b == b'\n') {
        case(out, line, file)?;
    }
    Ok(())
}

// Reads to the start of buf, to the end of the input or of buf; how many bytes.
fn read_full<R: Read>(input: &mut R, buf: &mut [u8]) -> io::Result<usize>
    ensures read { IfOk result (λ n. n ≤ length buf.new) }
    ensures kept { length buf.new ≡ length buf.old }
{
    let mut n: usize = 0;
    // Stays: how far a turn goes is what `read` answers; std's reading of all that comes needs a Vec, and the house has no heap.
    while n < buf.len() {
        let more = input.read(&mut buf[n..])?;
        if more == 0 {
            break;
        }
        n += more;
    }
    Ok(n)
}

fn main(rt: HostRuntime) -> io::Result<()> {
    let mut input = [0u8; 65536];
    let mut file = [0u8; 4096];
    let mut stdin = rt.stdin();
    let mut out = rt.stdout();
    let n = read_full(&mut stdin, &mut input)?;
    cases(&mut out, &input[..n], &mut file)
}
