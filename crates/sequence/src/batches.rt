// Plain bytes of any number, in batches of 4,096 that overlap by k - 1: ranks into a local array, codes of the ranks, and 2^64 - 1 over the windows
// that have a byte which is no letter.
ghost use Rattle.std.specs.Prelude.{◌≡◌, ◌+◌, ◌-◌, ◌≤◌, length};
ghost use Rattle.windows.specs.Needs.{Fills};
ghost use Rattle.sequence.specs.Needs.{codes_by};

use super::bytes::{blank, read_ranks};
use kernels::Coder;

// The most bytes of a batch.
const BATCH: usize = 4096;

// The numbers of the windows of one batch. Most batches have only letters, and nothing to blank.
fn fill_batch(bytes: &[u8], coder: &Coder, out: &mut [u64])
    requires bytes_len_bound { length bytes.now ≤ 4096 }
    requires room { length bytes.now + 1 - coder.now.k ≤ length out.old }
    ensures { Fills (codes_by coder.now bytes.now) out.old out.new }
{
    let mut buffer = [0u8; BATCH];
    let ranks = &mut buffer[..bytes.len()];
    let all_letters = read_ranks(bytes, &coder.ranks, ranks);
    coder.fill_codes(ranks, out);
    if !all_letters {
        blank(bytes, &coder.ranks, coder.k, out);
    }
}

// The numbers of all windows of a sequence, from the start of a lent list.
pub fn fill_sequence(sequence: &[u8], coder: &Coder, list: &mut [u64])
    requires { length sequence.now + 1 - coder.now.k ≤ length list.old }
    ensures { Fills (codes_by coder.now sequence.now) list.old list.new }
{
    let k = coder.k;
    let mut at: usize = 0;
    // Stays: batches overlap, so that neither `chunks` nor a range by steps has them; the next one starts at the first window that this one lacks.
    while at + k <= sequence.len() {
        let end = (at + BATCH).min(sequence.len());
        fill_batch(&sequence[at..end], coder, &mut list[at..]);
        at = end + 1 - k;
    }
}
