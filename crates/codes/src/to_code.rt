// From a word to its code, as document 01 works it out: the digits of the canonical word from the outside inwards, less the shifts.
ghost use Rattle.std.specs.Prelude.{◌≡◌, ◌+◌, ◌-◌, ◌*◌, ◌^◌, ◌<◌, ◌≤◌, leb, length, take, drop};
ghost use Rattle.settings.specs.Limits.{Limits};
ghost use Rattle.encoding.specs.Words.{Ranks, mirror, plain};
ghost use Rattle.encoding.specs.Codes.{pair_rank, digits, shift, odd_shift, code_of_canonical, code};
ghost use Rattle.encoding.specs.Needs.{equal_pairs};
ghost use Rattle.codes.specs.Needs.{pair_after, FitCanonical, FitDiffering};
ghost use Rattle.ranks.specs.Needs.{FitWord};

use ranks::{Code, pair_rank};
use settings::Mirror;

// The number of equal outer pairs: the index from 0 of the first pair that differs, or the middle.
fn differing_at(w: &[u64], s: u64, m: Mirror) -> usize
    requires { Ranks s w.now }
    ensures { result ≡ equal_pairs s m (length w.now) w.now }
{
    // Stays: document 01 names this form ("loop yielding by break the index of the differing pair, or the middle").
    let n = w.len();
    let mut i = 0;
    loop {
        if i == n / 2 || w[i] != ranks::mirror_rank(s, m, w[n - 1 - i]) {
            break i;
        }
        i += 1;
    }
}

// The value of the digits of a word whose outer pair l < r differs: R/s + 1, R mod s, and the inner letters.
fn differing_value(w: &[u64], s: u64, l: u64, r: u64) -> u64
    requires { FitDiffering s w.now l r }
    ensures { result ≡ (pair_rank s l r + s) * s ^ (length w.now - 2) + plain s (take (length w.now - 2) (drop 1 w.now)) }
{
    let n = w.len();
    let rank = pair_rank(s, l, r);
    let high = (rank / s + 1) * s + rank % s;
    let inner = ranks::plain_rank(&w[1..n - 1], s);
    high * settings::power(s, n - 2) + inner.0
}

// The value of the digits of a canonical word. Equal outer letters leave the digits of the inner word, a span two letters shorter.
fn digits_value(w: &[u64], s: u64, m: Mirror) -> u64
    requires { FitCanonical s m w.now }
    ensures { result ≡ plain s (digits s m (length w.now) w.now) }
{
    match w {
        [] => 0,
        [middle] => ranks::mirror_rank(s, m, *middle),
        [first, inner @ .., last] => {
            let last = ranks::mirror_rank(s, m, *last);
            if *first == last {
                digits_value(inner, s, m) * s + last
            } else {
                differing_value(w, s, *first, last)
            }
        }
    }
}

// The shift of a word of k letters with p equal outer pairs.
fn shift_of(s: u64, k: usize, p: usize) -> u64
    requires { (1 < s) × (s ^ k ≤ 2 ^ 62) × (2 * p ≤ k) }
    ensures { result ≡ shift s k (pair_after k p) }
{
    if k - p < p + 2 {
        return 0;
    }
    (settings::power(s, k - p - 1) - settings::power(s, k - k / 2)) / 2
}

// What is subtracted besides the shift, under complement with odd k: s/2 rounded down times s^(k/2 rounded down), for odd and even s alike.
fn odd_shift(s: u64, m: Mirror, k: usize) -> u64
    requires { (1 < s) × (s ^ k ≤ 2 ^ 62) }
    ensures { result ≡ odd_shift s m k }
{
    match m {
        Mirror::Reversal => 0,
        Mirror::Complement => {
            if k % 2 == 1 {
                s / 2 * settings::power(s, k / 2)
            } else {
                0
            }
        }
    }
}

// The code of a canonical word: the value of its digits, less the shifts.
fn canonical_code(w: &[u64], s: u64, m: Mirror) -> Code
    requires { FitCanonical s m w.now }
    ensures { result.0 ≡ code_of_canonical s m (length w.now) w.now }
{
    let k = w.len();
    let at = differing_at(w, s, m);
    let shift = shift_of(s, k, at);
    let odd = odd_shift(s, m, k);
    let value = digits_value(w, s, m);
    Code(value - shift - odd)
}

// What coding a word finds: the code of its class, and whether the word itself is the class's canonical one.
// Stays: both are there for every word, so this is no Option.
#[derive(Clone, Copy)]
pub struct WordCode {
    pub code: Code,
    pub canonical: bool,
}

// The code of a word of ranks: that of the word or of its mirror, whichever has the lower plain rank.
pub fn ranks_code(w: &[u64], s: u64, m: Mirror) -> WordCode
    requires { FitWord s w.now × (s ≤ 16) }
    ensures { (result.code.0 ≡ code s m (length w.now) w.now)
        × (result.canonical ≡ leb (plain s w.now) (plain s (mirror s m w.now))) }
{
    // Stays: no heap, and a mirror must lie somewhere: a word within the limits has at most 62 letters.
    let mut places = [0u64; 64];
    let mirror = ranks::mirrored(w, s, m, &mut places);
    let canonical = ranks::plain_rank(w, s).0 <= ranks::plain_rank(mirror, s).0;
    let code = if canonical {
        canonical_code(w, s, m)
    } else {
        canonical_code(mirror, s, m)
    };
    WordCode { code, canonical }
}
