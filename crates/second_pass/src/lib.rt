// The second pass over a file that was scanned without fault: under good settings, all its windows are counted up or down, or none where ground 12 or 18 applies.

#![tactic(auto)]

ghost use Rattle.std.specs.Prelude.{◌≡◌, ◌≤◌, length};
ghost use Rattle.settings.specs.Grounds.{outcome_of};
ghost use Rattle.settings.specs.Settings.{classes};
ghost use Rattle.files.specs.File.{as_file};
ghost use Rattle.second_pass.specs.Needs.{codes_of, ChangedUnlessRefused, TableUnlessRefused};

use counts::Way;
use fasta::Numbers;
use files::SequenceFile;
use kernels::Coder;
use settings::{Checked, Refusal};

// The second pass over a file, in the counts alone: all its windows are counted, or none where some count is too high for them; or all are taken away,
// or none where some count is too low for them.
// Stays: a match on the way. What is asked first, and of which refusal, differs with it too, so that two closures would have to be lent.
fn change_counts(
    way: Way,
    counts: &mut [u32],
    file: &SequenceFile,
    coder: &Coder,
    n: Numbers,
) -> Result<Numbers, Refusal>
    requires counts_len { length counts.old ≡ classes coder.now.s coder.now.mirror coder.now.k }
    requires windows_value { n.windows ≡ length (codes_of coder.now (as_file file.now)) }
    requires few_windows { n.windows ≤ 16777216 }
    ensures { ChangedUnlessRefused way n (codes_of coder.now (as_file file.now)) counts.old (outcome_of result) counts.new }
{
    let start = files::start_of(file.kind);
    match way {
        Way::In => {
            if counts::too_full(counts, n.windows) {
                return Err(Refusal::CountsFull);
            }
            batches::change_file(counts, file.bytes, start, coder, way, n.windows);
        }
        Way::Out => {
            if batches::take_file(counts, file.bytes, start, coder, n.windows) {
                return Err(Refusal::CountsLacking);
            }
        }
    }
    Ok(n)
}

// The second pass over a file on a table that is long enough: on its first places, one a class.
pub fn call_scanned(
    way: Way,
    table: &mut [u32],
    file: &SequenceFile,
    st: Checked,
    coder: &Coder,
    n: Numbers,
) -> Result<Numbers, Refusal>
    requires classes_are { st.classes ≡ classes coder.now.s coder.now.mirror coder.now.k }
    requires long_enough { st.classes ≤ length table.old }
    requires windows_value { n.windows ≡ length (codes_of coder.now (as_file file.now)) }
    requires few_windows { n.windows ≤ 16777216 }
    ensures { TableUnlessRefused way n (codes_of coder.now (as_file file.now)) st.classes table.old (outcome_of result) table.new }
{
    let classes = st.classes as usize; // later places are not lent on
    change_counts(way, &mut table[..classes], file, coder, n)
}
