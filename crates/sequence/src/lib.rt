// Codes along a sequence: the code of every window of plain sequence bytes, by a kernel for every alphabet or, for ACGT under complement, by two-bit
// numbers. Both calls have one definition in their contracts.

#![tactic(auto)]

mod batches;
mod bytes;

ghost use Rattle.std.specs.Prelude.{length};
ghost use Rattle.laws.specs.Text.{bytes};
ghost use Rattle.settings.specs.Given.{the_settings, as_given};
ghost use Rattle.settings.specs.Grounds.{outcome_of};
ghost use Rattle.settings.specs.Settings.{mirror_of};
ghost use Rattle.sequence.specs.Sequences.{FillsCodes};
ghost use Rattle.kernels.specs.Kernels.{Takes};

use kernels::{Coder, Kernel};
use settings::{Refusal, Settings};

// Both paths.
fn fill_list(
    settings: &Settings,
    kernel: Kernel,
    sequence: &[u8],
    list: &mut [u64],
) -> Result<usize, Refusal>
    requires { Takes kernel (length settings.now.letters.now) (mirror_of settings.now.mirror) }
    ensures { FillsCodes (as_given settings.now) sequence.now list.old (outcome_of result) list.new }
{
    let st = settings.check()?;
    if sequence.len() > settings::MOST_BYTES {
        return Err(Refusal::TooLarge);
    }
    let needed = kernels::window_count(sequence.len(), settings.k);
    if list.len() < needed {
        return Err(Refusal::ShortBuffer(needed));
    }
    let coder = Coder::new(settings.letters, st, kernel);
    batches::fill_sequence(sequence, &coder, list);
    Ok(needed)
}

// The general path: every alphabet and both mirrors.
pub fn codes(settings: &Settings, sequence: &[u8], list: &mut [u64]) -> Result<usize, Refusal>
    ensures { FillsCodes (as_given settings.now) sequence.now list.old (outcome_of result) list.new }
{
    fill_list(settings, Kernel::AnyAlphabet, sequence, list)
}

// The two-bit path: ACGT under complement.
pub fn codes_two_bit(k: usize, sequence: &[u8], list: &mut [u64]) -> Result<usize, Refusal>
    ensures { FillsCodes (the_settings (bytes "ACGT") k 1) sequence.now list.old (outcome_of result) list.new }
{
    let settings = Settings {
        letters: b"ACGT",
        k,
        mirror: 1,
    };
    fill_list(&settings, Kernel::TwoBit, sequence, list)
}
