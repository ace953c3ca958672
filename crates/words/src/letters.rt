// Words of letters, from bytes to ranks and back: the first byte that is no letter, a word's ranks, ranks in capitals; the plain rank, the mirror and the
// code of a word of letters, and the word with a code.
ghost use Rattle.std.specs.Prelude.{◌≡◌, ◌++◌, ◌<◌, ◌≤◌, length, drop};
ghost use Rattle.settings.specs.Settings.{classes};
ghost use Rattle.settings.specs.Limits.{Limits};
ghost use Rattle.settings.specs.RankTables.{rank_by_table};
ghost use Rattle.encoding.specs.Words.{Ranks, mirror, plain};
ghost use Rattle.encoding.specs.Codes.{code};
ghost use Rattle.encoding.specs.WordsOfCodes.{word_of};
ghost use Rattle.encoding.specs.Calls.{rank_or_zero, rank_at, ranks_of, in_capitals, foreign_from};
ghost use Rattle.words.specs.Needs.{ranks_by, FilledBy};

use codes::to_code::ranks_code;
use codes::to_word::fill_word;
use ranks::{Code, PlainRank};
use settings::{Mirror, RankTable};

// The place of the first byte that is no letter of the settings.
pub fn foreign_at(letters: &[u8], word: &[u8]) -> Option<usize>
    ensures { result ≡ foreign_from letters.now 0 word.now }
{
    word.iter()
        .position(|b| settings::rank_of(letters, *b).is_none())
}

// Writes what a function answers of each byte of a word to the start of out.
fn fill_by<F: Fn(u8) -> u64>(word: &[u8], rank: F, out: &mut [u64])
    requires room { length word.now ≤ length out.old }
    requires callable { F.IsAlwaysCallable rank }
    ensures { FilledBy (F.post rank) word.now out.old out.new (length word.now) }
{
    for (i, b) in word.iter().enumerate() {
        out[i] = rank(*b);
    }
}

// Writes the ranks of a word to the start of out; 0 for a byte that is no letter, whose word is refused.
pub fn fill_ranks(letters: &[u8], word: &[u8], out: &mut [u64])
    requires { length word.now ≤ length out.old }
    ensures { out.new ≡ ranks_of letters.now word.now ++ drop (length word.now) out.old }
{
    fill_by(
        word,
        |b| settings::rank_of(letters, b).unwrap_or(0) as u64,
        out,
    );
}

// The same by a table of all bytes' ranks, for `loader`, which reads many words: no letter is searched for.
pub fn fill_ranks_by(table: &RankTable, word: &[u8], out: &mut [u64])
    requires { length word.now ≤ length out.old }
    ensures { out.new ≡ ranks_by (rank_by_table table.now) word.now ++ drop (length word.now) out.old }
{
    fill_by(word, |b| u64::from(table.rank(b).unwrap_or(0)), out);
}

// Writes a word of ranks in capitals to the start of out.
pub fn write_letters(letters: &[u8], w: &[u64], out: &mut [u8])
    requires { Ranks (length letters.now) w.now × (length w.now ≤ length out.old) }
    ensures { out.new ≡ in_capitals letters.now w.now ++ drop (length w.now) out.old }
{
    for (i, rank) in w.iter().enumerate() {
        out[i] = letters[*rank as usize];
    }
}

// The ranks of a word, in lent places.
// Stays: no heap; so the functions below lend 64 places of their own, enough for the 62 letters that a word within the limits can have.
fn word_ranks<'a>(letters: &[u8], word: &[u8], places: &'a mut [u64]) -> &'a [u64]
    requires { length word.now ≤ length places.old }
    ensures { result.now ≡ ranks_of letters.now word.now }
{
    fill_ranks(letters, word, places);
    &places[..word.len()]
}

// Writes the mirror of a word of letters in capitals to the start of out.
pub fn write_mirror(letters: &[u8], word: &[u8], m: Mirror, out: &mut [u8])
    requires { Limits (length letters.now) (length word.now) × (length word.now ≤ length out.old) }
    ensures { out.new
        ≡ in_capitals letters.now (mirror (length letters.now) m (ranks_of letters.now word.now))
        ++ drop (length word.now) out.old }
{
    let mut own_places = [0u64; 64];
    let mut mirror_places = [0u64; 64];
    let own = word_ranks(letters, word, &mut own_places);
    let mirror = ranks::mirrored(own, letters.len() as u64, m, &mut mirror_places);
    write_letters(letters, mirror, out);
}

// The plain rank of a word of letters.
pub fn plain_of(letters: &[u8], word: &[u8]) -> PlainRank
    requires { Limits (length letters.now) (length word.now) }
    ensures { result.0 ≡ plain (length letters.now) (ranks_of letters.now word.now) }
{
    let mut places = [0u64; 64];
    let own = word_ranks(letters, word, &mut places);
    ranks::plain_rank(own, letters.len() as u64)
}

// The code of a word of letters.
pub fn word_code(letters: &[u8], word: &[u8], m: Mirror) -> Code
    requires { Limits (length letters.now) (length word.now) }
    ensures { result.0 ≡ code (length letters.now) m (length word.now) (ranks_of letters.now word.now) }
{
    let mut places = [0u64; 64];
    let own = word_ranks(letters, word, &mut places);
    ranks_code(own, letters.len() as u64, m).code
}

// Writes the canonical word with code q in capitals to the start of out.
pub fn write_word(letters: &[u8], k: usize, m: Mirror, q: u64, out: &mut [u8])
    requires { Limits (length letters.now) k × (q < classes (length letters.now) m k) × (k ≤ length out.old) }
    ensures { out.new ≡ in_capitals letters.now (word_of (length letters.now) m k q) ++ drop k out.old }
{
    // Stays: no heap, and the code's word has k letters, at most 62.
    let mut places = [0u64; 64];
    let ranks = &mut places[..k];
    fill_word(ranks, letters.len() as u64, m, q);
    write_letters(letters, ranks, out);
}
