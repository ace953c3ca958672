// The settings of a survey: letters, k and mirror. Their check, a byte's rank, powers of s, the number of classes; and the
// enum of all refusals, with which the calls of the crates above answer.

#![tactic(auto)]

ghost use Rattle.std.specs.Prelude.{◌≡◌, ◌==◌, ◌^◌, ◌<◌, ◌≤◌, ltb, min, length, drop, position};
ghost use Rattle.settings.specs.Given.{as_given};
ghost use Rattle.settings.specs.Grounds.{ground_of, ground, outcome, outcome_of};
ghost use Rattle.settings.specs.RankTables.{as_rank, rank_by_table, RanksOf};
ghost use Rattle.settings.specs.Settings.{classes, reads_u_as_t, read_as, rank_in, is_in, good_letters, mirror_of, settings_ground, bad_size, settings_for, settings_of};

// The limits of document 01: of s^k, of a sequence file's or a plain sequence's bytes, of a table's classes, and of a count.
pub const MOST_WORDS: u64 = 4611686018427387904;

pub const MOST_BYTES: usize = 16777216;

pub const MOST_CLASSES: u64 = 16777216;

pub const HIGHEST_COUNT: u64 = 4294967295;

// What `power` answers for any number above the most.
const MORE_WORDS: u64 = MOST_WORDS + 1;

// What the other strand makes of a word: read backwards, or read backwards with each rank i replaced by s - 1 - i.
#[derive(Clone, Copy, PartialEq, Eq)]
pub enum Mirror {
    Reversal,
    Complement,
}

// The grounds for refusing, in the order of their numbers 1 to 22, of which 3 is reserved. One that has a P other than 0 holds it.
#[derive(Clone, Copy, PartialEq, Eq)]
pub enum Refusal {
    BadLetters,
    BadMirror,
    BadK,
    WrongLength,
    TooLarge,
    ShortBuffer(usize),
    NoSuchCode,
    ForeignByte(usize),
    StrayByte(usize),
    EarlyLetter(usize),
    CountsFull,
    NoSurveyLine,
    LongInput,
    BadRecord(usize),
    QualityLength(usize),
    QualityByte(usize),
    CountsLacking,
    FormOrder,
    BadLine(usize),
    OtherSettings(usize),
    BadCount(usize),
}

impl Refusal {
    // Its number.
    pub fn number(self) -> u64
        ensures { result ≡ (ground_of self).0 }
    {
        match self {
            Refusal::BadLetters => 1,
            Refusal::BadMirror => 2,
            Refusal::BadK => 4,
            Refusal::WrongLength => 5,
            Refusal::TooLarge => 6,
            Refusal::ShortBuffer(_) => 7,
            Refusal::NoSuchCode => 8,
            Refusal::ForeignByte(_) => 9,
            Refusal::StrayByte(_) => 10,
            Refusal::EarlyLetter(_) => 11,
            Refusal::CountsFull => 12,
            Refusal::NoSurveyLine => 13,
            Refusal::LongInput => 14,
            Refusal::BadRecord(_) => 15,
            Refusal::QualityLength(_) => 16,
            Refusal::QualityByte(_) => 17,
            Refusal::CountsLacking => 18,
            Refusal::FormOrder => 19,
            Refusal::BadLine(_) => 20,
            Refusal::OtherSettings(_) => 21,
            Refusal::BadCount(_) => 22,
        }
    }

    // Its P, 0 for one that has none.
    pub fn place(self) -> u64
        ensures { result ≡ (ground_of self).1 }
    {
        match self {
            Refusal::ShortBuffer(needed) => needed as u64,
            Refusal::ForeignByte(at) => at as u64,
            Refusal::StrayByte(at) => at as u64,
            Refusal::EarlyLetter(at) => at as u64,
            Refusal::BadRecord(at) => at as u64,
            Refusal::QualityLength(at) => at as u64,
            Refusal::QualityByte(at) => at as u64,
            Refusal::BadLine(at) => at as u64,
            Refusal::OtherSettings(at) => at as u64,
            Refusal::BadCount(at) => at as u64,
            _ => 0,
        }
    }
}

// The mirror that a number names: 0 is reversal, 1 reverse complement.
impl TryFrom<u64> for Mirror {
    type Error = Refusal;

    fn try_from(number: u64) -> Result<Mirror, Refusal>
        ensures { outcome_of result ≡ outcome (ground 2 (ltb 1 number)) (mirror_of number) }
    {
        match number {
            0 => Ok(Mirror::Reversal),
            1 => Ok(Mirror::Complement),
            _ => Err(Refusal::BadMirror),
        }
    }
}

// The settings of a survey as a caller gives them: the letters, k, and the mirror's number.
#[derive(Clone, Copy)]
pub struct Settings<'a> {
    pub letters: &'a [u8],
    pub k: usize,
    pub mirror: u64,
}

// Settings to which no ground applies: the number of letters, k, the mirror, the number of words, s^k, and of classes.
#[derive(Clone, Copy)]
pub struct Checked {
    pub s: u64,
    pub k: usize,
    pub mirror: Mirror,
    pub power: u64,
    pub classes: u64,
}

// Whether the letters have T and no U, so that U is read as T (document 02, K2).
fn reads_u_as_t(letters: &[u8]) -> bool
    ensures { result ≡ reads_u_as_t letters.now }
{
    is_in(letters, 0, b'T') && !is_in(letters, 0, b'U')
}

// The capital that a byte is read as: its own, save that U is T where the letters have T and no U.
fn read_as(letters: &[u8], b: u8) -> u8
    ensures { result ≡ read_as letters.now b }
{
    let c = b.to_ascii_uppercase();
    if c == b'U' && reads_u_as_t(letters) {
        b'T'
    } else {
        c
    }
}

// The first place of b among the letters, if it is one of them.
fn place_of(letters: &[u8], b: u8) -> Option<usize>
    ensures { result ≡ position (λ l. l == b) letters.now }
{
    letters.iter().position(|l| *l == b)
}

// The rank of a byte among the settings' letters, if it is read as one of them.
pub fn rank_of(letters: &[u8], b: u8) -> Option<usize>
    ensures { result ≡ rank_in letters.now b }
{
    place_of(letters, read_as(letters, b))
}

// The ranks of all bytes, made once a call so that no byte of a file or sequence is searched for among the letters: at a byte's place its rank, or 255 for
// a byte that is no letter. A table of `Option`s would be twice as long.
#[derive(Clone, Copy)]
pub struct RankTable {
    pub bytes: [u8; 256],
}

// The rank of a byte as one byte, 255 for none. With at most 16 letters no rank is 255.
fn rank_byte(letters: &[u8], b: u8) -> u8
    requires { length letters.now ≤ 16 }
    ensures { as_rank result ≡ rank_in letters.now b }
{
    match rank_of(letters, b) {
        Some(rank) => rank as u8,
        None => 255,
    }
}

impl RankTable {
    // At most 16 letters are asked, so that 255, which stands for no letter, is no rank.
    pub fn new(letters: &[u8]) -> RankTable
        requires { length letters.now ≤ 16 }
        ensures { RanksOf letters.now result }
    {
        let mut bytes = [255u8; 256];
        for (b, place) in bytes.iter_mut().enumerate() {
            *place = rank_byte(letters, b as u8);
        }
        RankTable { bytes }
    }

    // The rank of a byte, if it is a letter.
    pub fn rank(&self, b: u8) -> Option<u8>
        ensures { result ≡ rank_by_table self.now b }
    {
        let rank = self.bytes[b as usize];
        if rank == 255 { None } else { Some(rank) }
    }
}

// Whether b stands in the letters at the place from or later.
pub fn is_in(letters: &[u8], from: usize, b: u8) -> bool
    ensures { result ≡ is_in b (drop from letters.now) }
{
    letters[from.min(letters.len())..].contains(&b)
}

// Whether the letters are 2 to 16 different capitals. A longer slice is refused by its length alone.
fn good_letters(letters: &[u8]) -> bool
    ensures { result ≡ good_letters letters.now }
{
    if letters.len() < 2 || letters.len() > 16 {
        return false;
    }
    for (i, &b) in letters.iter().enumerate() {
        if !b.is_ascii_uppercase() || is_in(letters, i + 1, b) {
            return false;
        }
    }
    true
}

// s to the k, or 2^62 + 1 where the power is above 2^62. As s is at least 2 the loop makes at most 63 turns, whatever k is:
// its measure in the proof is 63 less the turns made.
pub fn power(s: u64, k: usize) -> u64
    requires { 1 < s }
    ensures { result ≡ min (s ^ k) 4611686018427387905 }
{
    let mut p: u64 = 1;
    for _ in 0..k {
        if p > MOST_WORDS / s {
            return MORE_WORDS;
        }
        p *= s;
    }
    p
}

// The number of classes: half the sum of the words and the palindromes. A palindrome is its first k/2 letters and for odd k a middle letter that is its own
// mirror: under reversal any, under complement the middle one of an odd s. Words that fit 62 bits are asked, so that no product and no sum wraps.
pub fn class_count(s: u64, m: Mirror, k: usize) -> u64
    requires { (1 < s) × (s ^ k ≤ 2 ^ 62) }
    ensures { result ≡ classes s m k }
{
    let words = power(s, k);
    let half = power(s, k / 2);
    match m {
        Mirror::Reversal => {
            if k % 2 == 1 {
                (words + half * s) / 2
            } else {
                (words + half) / 2
            }
        }
        Mirror::Complement => {
            if k % 2 == 1 {
                (words + half * (s % 2)) / 2
            } else {
                (words + half) / 2
            }
        }
    }
}

// The settings of n letters, or ground 4.
fn sized(n: usize, k: usize, m: Mirror) -> Result<Checked, Refusal>
    requires { (2 ≤ n) × (n ≤ 16) }
    ensures { outcome_of result ≡ outcome (ground 4 (bad_size n k)) (settings_for n k m) }
{
    if k == 0 {
        return Err(Refusal::BadK);
    }
    let s = n as u64;
    let words = power(s, k);
    if words > MOST_WORDS {
        return Err(Refusal::BadK);
    }
    let classes = class_count(s, m, k);
    Ok(Checked {
        s,
        k,
        mirror: m,
        power: words,
        classes,
    })
}

impl<'a> Settings<'a> {
    // What later calls need of them, or the first of the grounds 1, 2 and 4 that applies.
    pub fn check(&self) -> Result<Checked, Refusal>
        ensures { outcome_of result ≡ outcome (settings_ground (as_given self.now)) (settings_of (as_given self.now)) }
    {
        if !good_letters(self.letters) {
            return Err(Refusal::BadLetters);
        }
        let m = Mirror::try_from(self.mirror)?;
        sized(self.letters.len(), self.k, m)
    }
}
