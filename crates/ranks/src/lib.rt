// Words of ranks, which coding words and coding along a sequence share: the mirror and the plain rank of a word, the rank of a pair.

#![tactic(auto)]

ghost use Rattle.std.specs.Prelude.{◌≡◌, ◌++◌, ◌<◌, ◌≤◌, length, get_or, drop};
ghost use Rattle.encoding.specs.Words.{Ranks, mirror_rank, mirror, plain};
ghost use Rattle.encoding.specs.Codes.{pair_rank};
ghost use Rattle.ranks.specs.Needs.{FitWord};

use settings::Mirror;

// A plain rank counts all words, a code counts classes, and neither may pass for the other.
#[derive(Clone, Copy)]
pub struct PlainRank(pub u64);

#[derive(Clone, Copy)]
pub struct Code(pub u64);

// The rank at place i.
pub fn rank_at(ranks: &[u8], i: usize) -> u64
    requires { i < length ranks.now }
    ensures { result ≡ get_or ranks.now i 0 }
{
    ranks[i] as u64
}

// What the mirror makes of a rank. A rank below s is asked, so that s - 1 - rank does not wrap below 0.
#[tactic(auto, unfolding(encoding::specs::Words::mirror_rank))]
pub fn mirror_rank(s: u64, m: Mirror, rank: u64) -> u64
    requires { rank < s }
    ensures { result ≡ mirror_rank s m rank }
{
    match m {
        Mirror::Reversal => rank,
        Mirror::Complement => s - 1 - rank,
    }
}

// Writes the mirror of a word to the start of out.
pub fn fill_mirror(w: &[u64], s: u64, m: Mirror, out: &mut [u64])
    requires { Ranks s w.now × (length w.now ≤ length out.old) }
    ensures { out.new ≡ mirror s m w.now ++ drop (length w.now) out.old }
{
    for (i, rank) in w.iter().rev().enumerate() {
        out[i] = mirror_rank(s, m, *rank);
    }
}

// The mirror of a word, in lent places.
pub fn mirrored<'a>(w: &[u64], s: u64, m: Mirror, places: &'a mut [u64]) -> &'a [u64]
    requires { Ranks s w.now × (length w.now ≤ length places.old) }
    ensures { result.now ≡ mirror s m w.now }
{
    fill_mirror(w, s, m, places);
    &places[..w.len()]
}

// The plain rank of a word: its ranks read as digits in base s.
pub fn plain_rank(w: &[u64], s: u64) -> PlainRank
    requires { FitWord s w.now }
    ensures { result.0 ≡ plain s w.now }
{
    let mut p: u64 = 0;
    for rank in w {
        p = p * s + *rank;
    }
    PlainRank(p)
}

// R, the rank of a pair l < r among all such pairs. At most 16 letters are asked, so that the product does not wrap.
#[tactic(auto, using(encoding::proofs::Pairs::pair_small), unfolding(encoding::specs::Codes::pair_rank))]
pub fn pair_rank(s: u64, l: u64, r: u64) -> u64
    requires { (l < r) × (r < s) × (s ≤ 16) }
    ensures { result ≡ pair_rank s l r }
{
    l * (2 * s - 3 - l) / 2 + r - 1
}
