// From ranks to codes: the piece that codes along a sequence, adding and withdrawing a file share. A `Coder` has what either kernel needs of good settings,
// made once a call; coding a list of ranks reads all of it but the ranks of bytes (`RankCoder`) and leaves the windows to one of the two kernels below. Callers
// cut what is too long for their arrays into pieces that overlap by k - 1 letters.

#![tactic(auto)]

ghost use Rattle.std.specs.Prelude.{◌≡◌, ◌+◌, ◌-◌, ◌*◌, ◌^◌, ◌<◌, ◌≤◌, length};
ghost use Rattle.settings.specs.Limits.{Limits};
ghost use Rattle.settings.specs.RankTables.{RanksBelow};
ghost use Rattle.encoding.specs.Words.{Ranks};
ghost use Rattle.windows.specs.Windows.{window_codes};
ghost use Rattle.windows.specs.Needs.{Fills};
ghost use Rattle.packed.specs.Mirrors.{MirrorTable};
ghost use Rattle.any_alphabet.specs.Needs.{Powers, CountsPalindromes};
ghost use Rattle.kernels.specs.Kernels.{Takes, GoodSettings};

use any_alphabet::AnyAlphabet;
use settings::{Checked, Mirror, RankTable};
use two_bit::TwoBit;

// How codes are worked out: by the kernel for every alphabet, or by two-bit numbers, which four letters under complement alone have.
#[derive(Clone, Copy)]
pub enum Kernel {
    AnyAlphabet,
    TwoBit,
}

// What a kernel needs of good settings, made once a call: the number of letters, k, the mirror, the number of palindromes, the powers of s up to s^k,
// the table of mirrors, and the rank of every byte.
#[derive(Clone, Copy)]
pub struct Coder {
    pub kernel: Kernel,
    pub s: u64,
    pub k: usize,
    pub mirror: Mirror,
    pub palindromes: u64,
    pub powers: [u64; 64],
    pub mirrors: [u8; 256],
    pub ranks: RankTable,
    pub ghost limits: { Limits s k },
    pub ghost some: { 1 ≤ k },
    pub ghost count: { CountsPalindromes s mirror k palindromes },
    pub ghost takes: { Takes kernel s mirror },
    pub ghost powers_are: { Powers s k powers },
    pub ghost mirrors_are: { MirrorTable mirrors },
    pub ghost ranks_below: { RanksBelow s ranks },
}

// What of a coder a list of ranks is coded by: all but the ranks of bytes, its tables lent. Who has ranks already needs no table of the ranks of bytes.
#[derive(Clone, Copy)]
pub struct RankCoder<'a> {
    pub kernel: Kernel,
    pub s: u64,
    pub k: usize,
    pub mirror: Mirror,
    pub palindromes: u64,
    pub powers: &'a [u64; 64],
    pub mirrors: &'a [u8; 256],
    pub ghost limits: { Limits s k },
    pub ghost some: { 1 ≤ k },
    pub ghost count: { CountsPalindromes s mirror k palindromes },
    pub ghost takes: { Takes kernel s mirror },
    pub ghost powers_are: { Powers s k powers.now },
    pub ghost mirrors_are: { MirrorTable mirrors.now },
}

// The powers of s up to s^k. It asks for good settings' s and k: as s is at least 2, k is at most 62, and as s^k is at most 2^62, no product wraps.
pub fn power_table(s: u64, k: usize) -> [u64; 64]
    requires lt_s { 1 < s }
    requires k_bound { s ^ k ≤ 2 ^ 62 }
    ensures { Powers s k result }
{
    let mut table = [1u64; 64];
    for i in 0..k {
        table[i + 1] = table[i] * s;
    }
    table
}

// How many windows of k bytes a sequence of n bytes has.
pub fn window_count(n: usize, k: usize) -> usize
    requires { n ≤ 16777216 }
    ensures { result ≡ n + 1 - k }
{
    (n + 1).saturating_sub(k)
}

impl RankCoder<'_> {
    // The codes of all windows of a list of ranks, from the start of a lent list, which has a place for each.
    #[inline]
    pub fn fill_codes(&self, ranks: &[u8], out: &mut [u64])
        requires ranks { Ranks self.now.s ranks.now }
        requires room { length ranks.now + 1 - self.now.k ≤ length out.old }
        ensures { Fills (window_codes self.now.s self.now.mirror self.now.k ranks.now) out.old out.new }
    {
        match self.kernel {
            Kernel::AnyAlphabet => {
                let words = AnyAlphabet {
                    s: self.s,
                    k: self.k,
                    mirror: self.mirror,
                    palindromes: self.palindromes,
                    powers: self.powers,
                    ranks,
                };
                words.fill(out);
            }
            Kernel::TwoBit => {
                let words = TwoBit {
                    k: self.k as u64,
                    palindromes: self.palindromes,
                    mirrors: self.mirrors,
                };
                words.fill(ranks, out);
            }
        }
    }
}

impl Coder {
    ghost use Rattle.kernels.specs.Coders.{CoderOf};

    // The coder of good settings, by a kernel that takes them.
    pub fn new(letters: &[u8], st: Checked, kernel: Kernel) -> Coder
        requires good { GoodSettings letters.now st }
        requires takes { Takes kernel st.s st.mirror }
        ensures { CoderOf letters.now st kernel result }
    {
        Coder {
            kernel,
            s: st.s,
            k: st.k,
            mirror: st.mirror,
            palindromes: 2 * st.classes - st.power, // of w words in c classes 2c - w are palindromes
            powers: power_table(st.s, st.k),
            mirrors: packed::mirror_table(),
            ranks: RankTable::new(letters),
        }
    }

    // The codes of all windows of a list of ranks, from the start of a lent list, which has a place for each.
    pub fn fill_codes(&self, ranks: &[u8], out: &mut [u64])
        requires ranks { Ranks self.now.s ranks.now }
        requires room { length ranks.now + 1 - self.now.k ≤ length out.old }
        ensures { Fills (window_codes self.now.s self.now.mirror self.now.k ranks.now) out.old out.new }
    {
        let coder = RankCoder {
            kernel: self.kernel,
            s: self.s,
            k: self.k,
            mirror: self.mirror,
            palindromes: self.palindromes,
            powers: &self.powers,
            mirrors: &self.mirrors,
        };
        coder.fill_codes(ranks, out);
    }
}
