// The windows of a file, counted or taken away in batches: the ranks of a run's letters go into a local array, their codes into another, and then each
// code is counted or taken away. Between the batches of one run its last k - 1 letters stay in the array.

#![tactic(auto)]

ghost use Rattle.std.specs.Prelude.{◌≡◌, false, ◌++◌, ◌+◌, ◌<◌, ◌≤◌, min, length, take, drop};
ghost use Rattle.settings.specs.Settings.{classes};
ghost use Rattle.encoding.specs.Words.{Ranks};
ghost use Rattle.settings.specs.RankTables.{rank_by_table};
ghost use Rattle.windows.specs.Windows.{window_codes};
ghost use Rattle.counts.specs.declared.Way.TheVariants.{In};
ghost use Rattle.counts.specs.Needs.{Fits, Changed, TakenUnlessLacking};
ghost use Rattle.batches.specs.Needs.{mark_of, codes_of_file, Gathers, Carries};

use counts::{Way, change_codes};
use fasta::{Item, Mode};
use kernels::Coder;
use settings::RankTable;

// What a byte does to the present run: how many letters it adds, 0 or 1, with the letter's rank; or that it ends the run.
// Stays: `gather` adds it without a branch, in 3.9 ns a byte of a test load; with an enum of the three it takes 4.8, with an `Option` of rank and letters 5.4.
#[derive(Clone, Copy)]
struct Mark {
    rank: u8,
    letters: usize,
    ends: bool,
}

// How far the file was read and in which mode, how many letters of the present run stand in the array, and whether the run ended there.
// Stays: a flag beside the letters, since they stand there in either case.
#[derive(Clone, Copy)]
struct Gathered {
    at: usize,
    mode: Mode,
    letters: usize,
    ended: bool,
}

// What an item of the file does to the present run.
fn mark_of(it: Item, table: &RankTable) -> Mark
    ensures { result ≡ mark_of (rank_by_table table.now) it }
{
    match it {
        Item::Opens => Mark {
            rank: 0,
            letters: 0,
            ends: true, // no window spans two records
        },
        Item::Skip | Item::Stray => Mark {
            rank: 0,
            letters: 0,
            ends: false,
        },
        Item::Letter(b) => match table.rank(b) {
            Some(rank) => Mark {
                rank,
                letters: 1,
                ends: false,
            },
            None => Mark {
                rank: 0,
                letters: 0,
                ends: true,
            },
        },
    }
}

// Gathers letters of one run behind the first `letters` of the array, from the place `at` of the file on. A byte that neither is a letter nor
// ends the run is written too, as rank 0, and overwritten by the next: that saves a branch that could not be foreseen. Bytes
// of header, + and quality lines are passed over by a search for their end.
fn gather(
    file: &[u8],
    table: &RankTable,
    mut at: usize,
    mut mode: Mode,
    mut letters: usize,
    array: &mut [u8],
) -> Gathered
    requires more { at < length file.now }
    requires room { letters < length array.old }
    ensures { Gathers table.now (take letters array.old) file.now mode at result array.new }
{
    // Stays: the place goes past all bytes that a mode passes over, whose end is found 16 bytes at a time.
    while at < file.len() && letters < array.len() {
        let e = mode.pass_over(file, at);
        if e == file.len() {
            at = e;
            break;
        }
        let m = mark_of(mode.item_at(file, e), table);
        mode = mode.next(file[e]);
        at = e + 1;
        if m.ends {
            return Gathered {
                at,
                mode,
                letters,
                ended: true,
            };
        }
        array[letters] = m.rank;
        letters += m.letters;
    }
    Gathered {
        at,
        mode,
        letters,
        ended: at == file.len(), // a full array ends no run
    }
}

// Keeps at the array's start what the next batch needs of n letters: the last k - 1, and none where their run ended. Answers how many.
fn carry(array: &mut [u8], n: usize, k: usize, ended: bool) -> usize
    requires some { 1 ≤ k }
    requires inside { n ≤ length array.old }
    requires goes_on { ended ≡ false → k ≤ n + 1 }
    ensures { Carries array.old n k ended result array.new }
{
    if ended {
        return 0;
    }
    array.copy_within(n + 1 - k..n, 0);
    k - 1
}

// One more or one less for the first windows of some letters of a run, `limit` at most; on the way out up to the first of whose class no count is left. Answers
// for how many.
fn change_batch(counts: &mut [u32], ranks: &[u8], coder: &Coder, way: Way, limit: usize) -> usize
    requires ranks { Ranks coder.now.s ranks.now }
    requires ranks_len_bound { length ranks.now ≤ 1024 }
    requires counts_len { length counts.old ≡ classes coder.now.s coder.now.mirror coder.now.k }
    requires fits { way ≡ In → Fits (take limit (window_codes coder.now.s coder.now.mirror coder.now.k ranks.now)) counts.old }
    ensures { Changed way counts.old (take limit (window_codes coder.now.s coder.now.mirror coder.now.k ranks.now)) result counts.new }
{
    // Stays: a buffer of a batch's size, as the house has no heap (1,024 letters have 1,024 windows at most).
    let mut codes = [0u64; 1024];
    coder.fill_codes(ranks, &mut codes);
    let n = limit.min(kernels::window_count(ranks.len(), coder.k));
    change_codes(counts, &codes[..n], way)
}

// One more or one less for the first windows, `limit` at most, of a file whose first byte stands in the mode `start`; on the way out up to the first of whose
// class no count is left. Answers for how many.
pub fn change_file(
    counts: &mut [u32],
    file: &[u8],
    start: Mode,
    coder: &Coder,
    way: Way,
    limit: usize,
) -> usize
    requires counts_len { length counts.old ≡ classes coder.now.s coder.now.mirror coder.now.k }
    requires fits { way ≡ In → Fits (take limit (codes_of_file coder.now file.now start)) counts.old }
    ensures { Changed way counts.old (take limit (codes_of_file coder.now file.now start)) result counts.new }
{
    let mut array = [0u8; 1024];
    let mut at: usize = 0;
    let mut mode = start;
    let mut n: usize = 0;
    let mut done: usize = 0;
    // Stays: a turn takes as much of the file as fills the array, and no fixed part of it.
    while at < file.len() {
        let g = gather(file, &coder.ranks, at, mode, n, &mut array);
        let r = change_batch(counts, &array[..g.letters], coder, way, limit - done);
        done += r;
        if r < kernels::window_count(g.letters, coder.k) {
            return done;
        }
        n = carry(&mut array, g.letters, coder.k, g.ended);
        at = g.at;
        mode = g.mode;
    }
    done
}

// Takes 1 from its class for each window of a file, of which there are `windows`; where some class has too few, what was taken is counted again, and all
// counts are as before. Answers whether that was so.
// Stays: a bool, as `counts::too_full` answers: which refusal it comes to is said in one place, where the call is answered (`second_pass::change_counts`).
pub fn take_file(
    counts: &mut [u32],
    file: &[u8],
    start: Mode,
    coder: &Coder,
    windows: usize,
) -> bool
    requires counts_len { length counts.old ≡ classes coder.now.s coder.now.mirror coder.now.k }
    requires windows_value { windows ≡ length (codes_of_file coder.now file.now start) }
    ensures { TakenUnlessLacking counts.old (codes_of_file coder.now file.now start) result counts.new }
{
    let taken = change_file(counts, file, start, coder, Way::Out, windows);
    if taken == windows {
        return false;
    }
    change_file(counts, file, start, coder, Way::In, taken);
    true
}
