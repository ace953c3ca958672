// The kernel for every alphabet: the codes of all windows of a list of ranks, each window's from what the window before it left. A code is
// worked out from a window's ends (encoding/proofs/CodesByEnds.antt): where the outer letters differ it takes the plain rank of the letters
// between them or that of their mirror, and only outer pairs that are equal are scanned. Divisors are constants.

#![tactic(auto)]

ghost use Rattle.std.specs.Prelude.{◌≡◌, ◌≢◌, [], ◌∷◌, ◌+◌, ◌-◌, ◌/◌, ◌^◌, ◌<◌, ◌≤◌, length, get_or};
ghost use Rattle.settings.specs.Limits.{Limits};
ghost use Rattle.encoding.specs.Words.{Ranks, mirror_rank};
ghost use Rattle.encoding.specs.Codes.{code};
ghost use Rattle.windows.specs.Windows.{window_codes};
ghost use Rattle.windows.specs.Needs.{Fills};
ghost use Rattle.any_alphabet.specs.Needs.{Powers, CountsPalindromes, OuterPair, Ranks-prop};

use ranks::{mirror_rank, pair_rank, rank_at};
use settings::Mirror;

// A list of ranks, and what the kernel needs to know of good settings: the number of letters, k, the mirror, the number of palindromes, and the powers
// of s up to s^k.
#[derive(Clone, Copy)]
pub struct AnyAlphabet<'a> {
    pub s: u64,
    pub k: usize,
    pub mirror: Mirror,
    pub palindromes: u64,
    pub powers: &'a [u64; 64],
    pub ranks: &'a [u8],
    pub ghost limits: { Limits s k },
    pub ghost some: { 1 ≤ k },
    pub ghost count: { CountsPalindromes s mirror k palindromes },
    pub ghost powers_are: { Powers s k powers.now },
    pub ghost ranks_below: { Ranks s ranks.now } by { Ranks-prop s ranks.now },
}

// A window by its place and length, with the number of palindromes of its length and the plain ranks of the letters between its first and last and of
// their mirror.
#[derive(Clone, Copy)]
struct Window {
    at: usize,
    length: usize,
    palindromes: u64,
    forward: u64,
    back: u64,
}

// The first number where l is below r, else the second.
fn by_order(l: u64, r: u64, first: u64, second: u64) -> u64
    ensures { (l < r → result ≡ first) × (r ≤ l → result ≡ second) }
{
    if l < r { first } else { second }
}

// The quotient by the number of letters. Each divisor is a constant, so that no letter costs a division by a number known only at run time.
fn divided(y: u64, s: u64) -> u64
    requires le_s { 2 ≤ s }
    requires s_bound { s ≤ 16 }
    ensures { result ≡ y / s }
{
    if s < 8 {
        match s {
            2 => y / 2,
            3 => y / 3,
            4 => y / 4,
            5 => y / 5,
            6 => y / 6,
            _ => y / 7,
        }
    } else if s < 13 {
        match s {
            8 => y / 8,
            9 => y / 9,
            10 => y / 10,
            11 => y / 11,
            _ => y / 12,
        }
    } else {
        match s {
            13 => y / 13,
            14 => y / 14,
            15 => y / 15,
            _ => y / 16,
        }
    }
}

// The code of a word of one letter: under complement its place, counted outwards from the middle of the letters, for odd and even s alike.
fn middle_code(s: u64, m: Mirror, x: u64) -> u64
    requires lt_s { 1 < s }
    requires x_lt_s { x < s }
    ensures { result ≡ code s m 1 (x ∷ []) }
{
    match m {
        Mirror::Reversal => x,
        Mirror::Complement => {
            let half = s / 2;
            if x < half { (s - 1) / 2 - x } else { x - half }
        }
    }
}

// How many letters stand between the first and the last of k.
fn inner_length(k: usize) -> usize
    ensures { result ≡ k - 2 }
{
    k.saturating_sub(2)
}

// Stays: that a window is one of these ranks, `IsWindow`, is said in each contract. In a ghost field it would have the ranks and settings beside it in every
// window, and each contract would say that two windows have the same.
impl AnyAlphabet<'_> {
    ghost use Rattle.any_alphabet.specs.Windows.{IsWindow, code_of};

    // The rank at place i, as the mirror shows it.
    fn mirror_rank_at(&self, i: usize) -> u64
        requires { i < length self.now.ranks.now }
        ensures { result ≡ mirror_rank self.now.s self.now.mirror (get_or self.now.ranks.now i 0) }
    {
        mirror_rank(self.s, self.mirror, rank_at(self.ranks, i))
    }

    // The code of a window whose outer letters l and r (as the mirror shows it) differ.
    fn differing_code(&self, w: Window, l: u64, r: u64) -> u64
        requires window { IsWindow self.now w }
        requires outer_pair { OuterPair self.now.s self.now.mirror w.length self.now.ranks.now w.at l r }
        requires letters_differ { l ≢ r }
        ensures { result ≡ code_of self.now w }
    {
        let between = by_order(l, r, w.forward, w.back);
        let top = self.powers[w.length - 1];
        let low = self.powers[w.length - 2];
        let pair = pair_rank(self.s, l.min(r), l.max(r));
        (top + w.palindromes) / 2 + pair * low + between
    }

    // The window within, two letters shorter.
    fn inner_window(&self, w: Window) -> Window
        requires window { IsWindow self.now w }
        requires two { 2 ≤ w.length }
        ensures inner { IsWindow self.now result }
        ensures place { result.at ≡ w.at + 1 }
        ensures shorter { result.length ≡ w.length - 2 }
    {
        let at = w.at + 1;
        let length = w.length - 2;
        let palindromes = divided(w.palindromes, self.s);
        if w.length < 4 {
            return Window {
                at,
                length,
                palindromes,
                forward: 0,
                back: 0,
            };
        }
        let power = self.powers[w.length - 3];
        let first = rank_at(self.ranks, at) * power;
        let last = self.mirror_rank_at(w.at + w.length - 2) * power;
        Window {
            at,
            length,
            palindromes,
            forward: divided(w.forward - first, self.s),
            back: divided(w.back - last, self.s),
        }
    }

    // The code of a window, by a scan of its pairs from the outside inwards.
    fn scanned_code(&self, outer: Window) -> u64
        requires { IsWindow self.now outer }
        ensures { result ≡ code_of self.now outer }
    {
        let mut w = outer;
        let mut closing: u64 = 0;
        let mut scale: u64 = 1;
        // Stays: no index is counted, the window itself gets two letters shorter at each turn.
        while 2 <= w.length {
            let l = rank_at(self.ranks, w.at);
            let r = self.mirror_rank_at(w.at + w.length - 1);
            if l != r {
                return closing + scale * self.differing_code(w, l, r);
            }
            closing += scale * l;
            scale *= self.s;
            w = self.inner_window(w);
        }
        if w.length == 1 {
            closing + scale * middle_code(self.s, self.mirror, rank_at(self.ranks, w.at))
        } else {
            closing
        }
    }

    // The code of a window: at once where its outer letters differ.
    fn window_code(&self, w: Window) -> u64
        requires window { IsWindow self.now w }
        requires some { 1 ≤ w.length }
        ensures { result ≡ code_of self.now w }
    {
        if w.length == 1 {
            return self.scanned_code(w);
        }
        let l = rank_at(self.ranks, w.at);
        let r = self.mirror_rank_at(w.at + w.length - 1);
        if l != r {
            return self.differing_code(w, l, r);
        }
        self.scanned_code(w)
    }

    // The window at 0, letter by letter.
    fn first_window(&self) -> Window
        requires { self.now.k ≤ length self.now.ranks.now }
        ensures window { IsWindow self.now result }
        ensures place { result.at ≡ 0 }
        ensures length { result.length ≡ self.now.k }
    {
        let mut forward: u64 = 0;
        let mut back: u64 = 0;
        for i in 0..inner_length(self.k) {
            let x = rank_at(self.ranks, i + 1);
            forward = forward * self.s + x;
            back += mirror_rank(self.s, self.mirror, x) * self.powers[i];
        }
        Window {
            at: 0,
            length: self.k,
            palindromes: self.palindromes,
            forward,
            back,
        }
    }

    // The next window: of the letters between the first and the last, one leaves in front and one enters at the end, `shown` as the mirror shows it.
    fn next_window(&self, w: Window) -> Window
        requires window { IsWindow self.now w }
        requires some { 1 ≤ w.length }
        requires inside { w.at + w.length < length self.now.ranks.now }
        ensures next { IsWindow self.now result }
        ensures place { result.at ≡ w.at + 1 }
        ensures length { result.length ≡ w.length }
    {
        let n = inner_length(w.length);
        let power = self.powers[n];
        let leaving = rank_at(self.ranks, w.at + 1);
        let entering = rank_at(self.ranks, w.at + 1 + n);
        let shown = mirror_rank(self.s, self.mirror, entering);
        Window {
            at: w.at + 1,
            length: w.length,
            palindromes: w.palindromes,
            forward: w.forward * self.s + entering - leaving * power,
            back: divided(w.back + shown * power, self.s),
        }
    }

    // The codes of all windows of the ranks, from the start of a lent list.
    pub fn fill(&self, out: &mut [u64])
        requires { length self.now.ranks.now + 1 - self.now.k ≤ length out.old }
        ensures { Fills (window_codes self.now.s self.now.mirror self.now.k self.now.ranks.now) out.old out.new }
    {
        if self.ranks.len() < self.k {
            return;
        }
        let mut window = self.first_window();
        out[0] = self.window_code(window);
        for i in 0..self.ranks.len() - self.k {
            window = self.next_window(window);
            out[i + 1] = self.window_code(window);
        }
    }
}
