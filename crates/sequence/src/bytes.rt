// From plain bytes to ranks, by a table made once a call; and the windows that have a byte which is no letter of the settings.
ghost use Rattle.std.specs.Prelude.{◌≡◌, cond, is_some, ◌+◌, ◌-◌, ◌^◌, ◌<◌, ◌≤◌, length};
ghost use Rattle.settings.specs.RankTables.{rank_by_table};
ghost use Rattle.words.specs.Needs.{ranks_by};
ghost use Rattle.sequence.specs.Needs.{all_ranked, Run, Blanked};

use settings::RankTable;

// What stands for a window that has a byte which is no letter.
const NO_CODE: u64 = u64::MAX;

// The ranks of some bytes; the answer is whether all of them are letters. For a byte that is none a rank must stand too, since the kernels take nothing else: 0. The
// windows of such a byte are blanked afterwards.
// Stays: the flag beside what is written. The ranks are as needed whether all bytes are letters or not.
pub fn read_ranks(bytes: &[u8], table: &RankTable, ranks: &mut [u8]) -> bool
    requires { length ranks.old ≡ length bytes.now }
    ensures ranks_after { ranks.new ≡ ranks_by (rank_by_table table.now) bytes.now }
    ensures value { result ≡ all_ranked (rank_by_table table.now) bytes.now }
{
    let mut all = true;
    for (i, b) in bytes.iter().enumerate() {
        let rank = table.rank(*b);
        ranks[i] = rank.unwrap_or(0);
        all &= rank.is_some();
    }
    all
}

// How many letters stand in a row at the end of some bytes and b, of which `run` stand at the end of those bytes.
fn next_run(table: &RankTable, run: usize, b: u8) -> usize
    requires { run + 1 < 2 ^ 64 }
    ensures { result ≡ cond (is_some (rank_by_table table.now b)) (run + 1) 0 }
{
    match table.rank(b) {
        Some(_) => run + 1,
        None => 0,
    }
}

// How many letters stand in a row at the end of some bytes.
fn first_run(bytes: &[u8], table: &RankTable) -> usize
    ensures { Run table.now bytes.now (length bytes.now) result }
{
    let mut run: usize = 0;
    for b in bytes {
        run = next_run(table, run, *b);
    }
    run
}

// The code of a window that ends a run of letters, or 2^64 - 1 where the run is shorter than the window.
fn kept(run: usize, k: usize, code: u64) -> u64
    ensures { (k ≤ run → result ≡ code) × (run < k → result ≡ 18446744073709551615) }
{
    if run < k { NO_CODE } else { code }
}

// Puts 2^64 - 1 over the codes of the windows that have a byte which is no letter. Each byte from the k-th on ends a window.
pub fn blank(bytes: &[u8], table: &RankTable, k: usize, out: &mut [u64])
    requires some { 1 ≤ k }
    requires room { length bytes.now + 1 - k ≤ length out.old }
    ensures { Blanked table.now k bytes.now out.old out.new (length bytes.now + 1 - k) }
{
    if bytes.len() < k {
        return;
    }
    let mut run = first_run(&bytes[..k - 1], table);
    for (j, b) in bytes[k - 1..].iter().enumerate() {
        run = next_run(table, run, *b);
        out[j] = kept(run, k, out[j]);
    }
}
