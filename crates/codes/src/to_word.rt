// From a code to its canonical word: the outer letters from the code's highest or lowest part, then the word within.
ghost use Rattle.std.specs.Prelude.{◌≡◌, [], ◌∷◌, ◌++◌, ◌+◌, ◌-◌, ◌*◌, ◌^◌, ◌<◌, ◌≤◌, length, take, drop};
ghost use Rattle.settings.specs.Settings.{classes};
ghost use Rattle.settings.specs.Limits.{Limits};
ghost use Rattle.encoding.specs.WordsOfCodes.{word_of_plain, pair_of_rank, middle_of_code, word_of};
ghost use Rattle.codes.specs.Needs.{RankOfPair, FitHighCode};

use settings::Mirror;

// Sets the two ends of a word of two letters or more.
fn set_ends(out: &mut [u64], a: u64, b: u64)
    requires { 2 ≤ length out.old }
    ensures { out.new ≡ a ∷ (take (length out.old - 2) (drop 1 out.old) ++ (b ∷ [])) }
{
    let n = out.len();
    out[0] = a;
    out[n - 1] = b;
}

// Writes the word with plain rank q.
fn fill_plain(out: &mut [u64], s: u64, q: u64)
    requires { (1 < s) × (q < s ^ length out.old) }
    ensures { out.new ≡ word_of_plain s (length out.old) q }
{
    let mut left = q;
    for i in (0..out.len()).rev() {
        out[i] = left % s;
        left /= s;
    }
}

// The pair l < r with a rank: each turn leaves out the s - 1 - l pairs with the lowest l.
fn pair_of(s: u64, rank: u64) -> (u64, u64)
    requires { RankOfPair s rank }
    ensures { result ≡ pair_of_rank (s - 1) rank }
{
    // Stays: the rank ends the loop; a `for l in 0..s` would return from within and end in an `unreachable!`.
    let mut left = rank;
    let mut l = 0;
    while left >= s - 1 - l {
        left -= s - 1 - l;
        l += 1;
    }
    (l, l + 1 + left)
}

// The canonical word of one letter with code q.
#[tactic(auto, unfolding(encoding::specs::WordsOfCodes::middle_of_code))]
fn middle_of(s: u64, m: Mirror, q: u64) -> u64
    requires { (q < classes s m 1) × (s ≤ 16) }
    ensures { result ≡ middle_of_code s m q }
{
    match m {
        Mirror::Reversal => q,
        Mirror::Complement => (s - 1) / 2 - q,
    }
}

// Writes the canonical word whose code is q above those of the words with equal outer letters.
fn fill_differing(out: &mut [u64], s: u64, m: Mirror, q: u64)
    requires { FitHighCode s m out.old q }
    ensures { out.new ≡ word_of s m (length out.old) (s * classes s m (length out.old - 2) + q) }
{
    let n = out.len();
    let p = settings::power(s, n - 2);
    let (l, r) = pair_of(s, q / p);
    set_ends(out, l, ranks::mirror_rank(s, m, r));
    fill_plain(&mut out[1..n - 1], s, q % p);
}

// Writes the canonical word with code q.
pub fn fill_word(out: &mut [u64], s: u64, m: Mirror, q: u64)
    requires { Limits s (length out.old) × (q < classes s m (length out.old)) }
    ensures { out.new ≡ word_of s m (length out.old) q }
{
    let n = out.len();
    if n == 0 {
        return;
    }
    if n == 1 {
        out[0] = middle_of(s, m, q);
        return;
    }
    let low = s * settings::class_count(s, m, n - 2);
    if q < low {
        let r = q % s;
        set_ends(out, r, ranks::mirror_rank(s, m, r));
        fill_word(&mut out[1..n - 1], s, m, q / s);
    } else {
        fill_differing(out, s, m, q - low);
    }
}
