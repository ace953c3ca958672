// The kernel by two-bit numbers, for four letters under complement: a window's plain rank is rolled by a shift and a mask, its mirror's is looked up
// four letters at a time, and a count of leading zeros finds the pair that differs (source document 002, section 5.2; document 02, K3).

#![tactic(auto)]

ghost use Rattle.std.specs.Prelude.{◌≡◌, ◌+◌, ◌-◌, ◌*◌, ◌/◌, ◌%◌, ◌^◌, ◌<◌, ◌≤◌, length};
ghost use Rattle.encoding.specs.Words.{Complement, Ranks, plain};
ghost use Rattle.encoding.specs.WordsOfCodes.{word_of_plain};
ghost use Rattle.encoding.specs.Codes.{pair_rank, code};
ghost use Rattle.packed.specs.Mirrors.{MirrorTable};
ghost use Rattle.windows.specs.Windows.{window_codes};
ghost use Rattle.windows.specs.Needs.{Fills};
ghost use Rattle.two_bit.specs.Needs.{CountsPalindromes, Differ};

use packed::window_mirror;

// What the kernel needs to know of four letters under complement, made once a call: k, the number of palindromes, and the table of mirrors.
#[derive(Clone, Copy)]
pub struct TwoBit<'a> {
    pub k: u64,
    pub palindromes: u64,
    pub mirrors: &'a [u8; 256],
    pub ghost some: { 1 ≤ k },
    pub ghost small: { k ≤ 31 },
    pub ghost count: { CountsPalindromes k palindromes },
    pub ghost mirrors_are: { MirrorTable mirrors.now },
}

// The plain rank of a window or, if that is lower, of its mirror, which is that of its canonical word; the other of the two; and how many of their lowest
// letters reach up to the highest one that differs, 0 where none does.
#[derive(Clone, Copy)]
struct Ordered {
    lower: u64,
    higher: u64,
    differing: u64,
}

// Stays: that a shift is by less than 64 bits is asked of i in each of the next three; a type of its own for a number of letters below 32 would be no plainer.

// 4^i, a bit in the place of the letter i.
fn power_of_four(i: u64) -> u64
    requires { i < 32 }
    ensures { result ≡ 4 ^ i }
{
    1 << (2 * i)
}

// a without its i lowest letters.
fn without_low(a: u64, i: u64) -> u64
    requires { i < 32 }
    ensures { result ≡ a / 4 ^ i }
{
    a >> (2 * i)
}

// The i lowest letters of a.
fn low_letters(a: u64, i: u64) -> u64
    requires { i < 32 }
    ensures { result ≡ a % 4 ^ i }
{
    a & (power_of_four(i) - 1)
}

// How many lowest letters reach up to the highest one that differs; 0 where none does.
fn differing_letters(a: u64, b: u64) -> u64
    ensures { Differ a b result }
{
    let z = u64::leading_zeros(a ^ b) as u64;
    (65 - z) / 2
}

// The rank of a pair l < r of four letters, as `ranks::pair_rank` gives it for s = 4, without its product: l(5 - l)/2 is 0, 2 or 3, and so is
// l + (l + 1)/2.
fn pair_rank_of_four(l: u64, r: u64) -> u64
    requires l_lt_r { l < r }
    requires r_bound { r < 4 }
    ensures { result ≡ pair_rank 4 l r }
{
    l + (l + 1) / 2 + r - 1
}

// The digit of a middle letter l, 3 - l, less the odd-k subtraction, which is 2 at this place. In a canonical word l is 0 or 1.
fn middle_digit(l: u64) -> u64
    ensures { result ≡ 1 - l }
{
    if l < 1 { 3 - 2 } else { 2 - 2 }
}

// The plain rank of some letters, one by one.
fn plain_rank(letters: &[u8]) -> u64
    requires ranks { Ranks 4 letters.now }
    requires few { length letters.now ≤ 31 }
    ensures { result ≡ plain 4 letters.now }
{
    let mut x: u64 = 0;
    for rank in letters {
        x = x * 4 + *rank as u64;
    }
    x
}

impl TwoBit<'_> {
    ghost use Rattle.two_bit.specs.Ordered.{Canonical, OrdersRanks};

    // A window's plain rank and its mirror's, which is looked up, in order.
    fn ordered(&self, x: u64) -> Ordered
        requires { x < 4 ^ self.now.k }
        ensures { OrdersRanks self.now.k x result }
    {
        let y = window_mirror(x, self.k, self.mirrors);
        let lower = x.min(y);
        let higher = x.max(y);
        Ordered {
            lower,
            higher,
            differing: differing_letters(lower, higher),
        }
    }

    // The code of a canonical word in which a pair of two letters differs. The k - differing letters above it agree at either end. `inner` are the letters
    // between the pair, and one - 1 - rest the digits of the equal pairs, with `one` in the place above them; half of 4^(differing - 1) is 2 times low.
    fn pair_code(&self, word: Ordered) -> u64
        requires word { Canonical self.now.k word }
        requires differs { self.now.k + 2 ≤ 2 * word.differing }
        ensures { result ≡ code 4 Complement self.now.k (word_of_plain 4 self.now.k word.lower) }
    {
        let l = without_low(word.lower, word.differing - 1);
        let r = without_low(word.higher, word.differing - 1);
        let pair = pair_rank_of_four(l % 4, r % 4);
        let low = power_of_four(word.differing - 2);
        let one = without_low(power_of_four(self.k), word.differing);
        let inner = word.lower / 4 & (low - one);
        let rest = word.lower & (one - 1);
        (pair + 2) * low + self.palindromes / 2 + inner + (one - 1 - rest)
    }

    // The code of a canonical word in which no pair of two letters differs.
    fn middle_code(&self, word: Ordered) -> u64
        requires word { Canonical self.now.k word }
        requires agrees { 2 * word.differing < self.now.k + 2 }
        ensures { result ≡ code 4 Complement self.now.k (word_of_plain 4 self.now.k word.lower) }
    {
        let half = self.k / 2;
        let one = power_of_four(half);
        let rest = low_letters(word.lower, half);
        if self.k % 2 == 0 {
            return one - 1 - rest;
        }
        let l = without_low(word.lower, half) % 4;
        let middle = middle_digit(l);
        middle * one + (one - 1 - rest)
    }

    // The code of a window, from its plain rank.
    fn window_code(&self, x: u64) -> u64
        requires { x < 4 ^ self.now.k }
        ensures { result ≡ code 4 Complement self.now.k (word_of_plain 4 self.now.k x) }
    {
        let word = self.ordered(x);
        if self.k + 2 <= 2 * word.differing {
            self.pair_code(word)
        } else {
            self.middle_code(word)
        }
    }

    // The plain rank of the next window, from a number whose k - 1 lowest letters are that window's but for its last.
    fn next_rank(&self, x: u64, last: u64) -> u64
        requires { last < 4 }
        ensures { result ≡ x % 4 ^ (self.now.k - 1) * 4 + last }
    {
        low_letters(x, self.k - 1) * 4 + last
    }

    // The codes of all windows of a list of ranks below 4, under complement, from the start of a lent list. Each rank from the k-th on ends a window.
    pub fn fill(&self, ranks: &[u8], out: &mut [u64])
        requires ranks { Ranks 4 ranks.now }
        requires room { length ranks.now + 1 - self.now.k ≤ length out.old }
        ensures { Fills (window_codes 4 Complement self.now.k ranks.now) out.old out.new }
    {
        let k = self.k as usize;
        if ranks.len() < k {
            return;
        }
        let mut x = plain_rank(&ranks[..k - 1]);
        for (j, last) in ranks[k - 1..].iter().enumerate() {
            x = self.next_rank(x, *last as u64);
            out[j] = self.window_code(x);
        }
    }
}
