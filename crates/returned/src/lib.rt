// What the C calls (crate kmer) return and read as numbers: a refusal beside a call's own number, a file's kind, a file's five numbers.

#![tactic(auto)]

ghost use Rattle.std.specs.Prelude.{◌≡◌, ◌^◌, ◌<◌, ◌≤◌, ◌++◌, length, drop};
ghost use Rattle.settings.specs.Grounds.{refused as Refused, ground_of, outcome_of};
ghost use Rattle.returned.specs.Returned.{returned, returned_with_place, returned_up_to};
ghost use Rattle.returned.specs.FileNumbers.{kind_of_number, five_numbers};
ghost use Rattle.returned.specs.Needs.{PlaceFits};

use fasta::Numbers;
use files::Kind;
use settings::Refusal;

// 2^63: what is returned is a refusal from here on.
const REFUSED: u64 = 9223372036854775808;

// 2^55 - 1: the largest P that fits beside a number.
const MOST_PLACE: u64 = 36028797018963967;

// 2^63 plus the number.
pub fn refused(f: Refusal) -> u64
    ensures { result ≡ returned (Refused (ground_of f)) }
{
    REFUSED + f.number()
}

// 2^63 plus P * 256 plus the number, P as far as it fits.
pub fn refused_up_to(f: Refusal) -> u64
    ensures { result ≡ returned_up_to (Refused (ground_of f)) }
{
    REFUSED + f.place().min(MOST_PLACE) * 256 + f.number()
}

// 2^63 plus P * 256 plus the number, of a P below 2^32, as the P of every call but `kmer_load` is.
pub fn refused_at(f: Refusal) -> u64
    requires { (ground_of f).1 < 2 ^ 32 }
    ensures { result ≡ returned_with_place (Refused (ground_of f)) }
{
    refused_up_to(f)
}

// The answer of a call that overwrites a lent buffer, as one number: how many places it set, or the refusal with its P.
pub fn with_place(answer: Result<usize, Refusal>) -> u64
    requires { PlaceFits (outcome_of answer) }
    ensures { result ≡ returned_with_place (outcome_of answer) }
{
    match answer {
        Ok(n) => n as u64,
        Err(f) => refused_at(f),
    }
}

// Writes the five numbers to the first places of the answer list.
pub fn write_numbers(n: Numbers, answer: &mut [u64])
    requires { 5 ≤ length answer.old }
    ensures { answer.new ≡ five_numbers n ++ drop 5 answer.old }
{
    answer[..5].copy_from_slice(&[
        n.records as u64,
        n.letters as u64,
        n.foreign as u64,
        n.edge as u64,
        n.windows as u64,
    ]);
}

// The kind of file that a number names: 0 is FASTA, any other number FASTQ.
// Stays: the number is the C interface's; an `impl From<u64> for Kind` would have to stand beside `Kind`, in `files`, which knows of no C call.
#[tactic(auto, unfolding(crate::specs::FileNumbers::kind_of_number))]
pub fn kind_of_number(fastq: u64) -> Kind
    ensures { result ≡ kind_of_number fastq }
{
    if fastq == 0 { Kind::Fasta } else { Kind::Fastq }
}
