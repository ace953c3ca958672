// The table of counts, one place a class: clearing it, adding files to it and withdrawing them. What holds of a list of such calls, demand 3, is
// stated in the crate tally_book (specs/Demand.antt).

#![tactic(auto)]

ghost use Rattle.std.specs.Prelude.{◌≡◌, length};
ghost use Rattle.settings.specs.Given.{as_given};
ghost use Rattle.settings.specs.Grounds.{outcome, outcome_of};
ghost use Rattle.settings.specs.Settings.{settings_of};
ghost use Rattle.files.specs.File.{as_file};
ghost use Rattle.kernels.specs.Kernels.{Takes};
ghost use Rattle.tally_book.specs.Table.{ready_ground, Called, Added, Withdrawn, Clears};
ghost use Rattle.counts.specs.Calls.{call_of};
ghost use Rattle.table.specs.Needs.{room_ground};

use counts::Way;
use fasta::Numbers;
use files::SequenceFile;
use kernels::{Coder, Kernel};
use settings::{Checked, Mirror, Refusal, Settings};

// The number of classes, where a table may have so many and one with this room has a place for each: the grounds 6 and 7.
fn room_for(st: Checked, room: usize) -> Result<usize, Refusal>
    ensures { outcome_of result ≡ outcome (room_ground st.classes room) st.classes }
{
    if st.classes > settings::MOST_CLASSES {
        return Err(Refusal::TooLarge);
    }
    let classes = st.classes as usize;
    if room < classes {
        return Err(Refusal::ShortBuffer(classes));
    }
    Ok(classes)
}

// Sets the first places, one a class, to 0. Refused on the grounds 1, 2, 4, 6 and 7.
pub fn clear(settings: &Settings, table: &mut [u32]) -> Result<usize, Refusal>
    ensures { Clears (as_given settings.now) table.old (outcome_of result) table.new }
{
    let st = settings.check()?;
    let n = room_for(st, table.len())?;
    table[..n].fill(0);
    Ok(n)
}

// Whether a file may be read for an add or a withdrawal: the settings, where no ground among 1, 2, 4, 6 and 7 applies.
pub fn ready(settings: &Settings, room: usize, file: &[u8]) -> Result<Checked, Refusal>
    ensures { outcome_of result ≡ outcome (ready_ground (as_given settings.now) room file.now) (settings_of (as_given settings.now)) }
{
    let st = settings.check()?;
    if file.len() > settings::MOST_BYTES {
        return Err(Refusal::TooLarge);
    }
    room_for(st, room)?;
    Ok(st)
}

// The kernel by two-bit numbers where it can be had: four letters under complement.
fn kernel_for(s: u64, m: Mirror) -> Kernel
    ensures { Takes result s m }
{
    match m {
        Mirror::Complement if s == 4 => Kernel::TwoBit,
        _ => Kernel::AnyAlphabet,
    }
}

// An add or a withdrawal of a file, as `way` says. The file is read to its end before the table is touched.
pub fn call(
    way: Way,
    settings: &Settings,
    table: &mut [u32],
    file: &SequenceFile,
) -> Result<Numbers, Refusal>
    ensures { Called (as_given settings.now) table.old (call_of way (as_file file.now)) (outcome_of result) table.new }
{
    let st = ready(settings, table.len(), file.bytes)?;
    let coder = Coder::new(settings.letters, st, kernel_for(st.s, st.mirror));
    let n = files::scan_file(file, &coder.ranks, settings.k)?;
    second_pass::call_scanned(way, table, file, st, &coder, n)
}

// Stays: `add` and `withdraw` are the two calls of documents 01 and 02, each with its own contract (`Added`, `Withdrawn`), over one function.
// Adds 1 for each window of a file, or refuses the file on the grounds 1, 2, 4, 6, 7, those of its kind or 12, and changes no count.
pub fn add(settings: &Settings, table: &mut [u32], file: &SequenceFile) -> Result<Numbers, Refusal>
    ensures { Added (as_given settings.now) table.old (as_file file.now) (outcome_of result) table.new }
{
    call(Way::In, settings, table, file)
}

// Takes 1 from its class for each window of a file, or refuses the file on the grounds 1, 2, 4, 6, 7, those of its kind or 18, and leaves every count as it
// was.
pub fn withdraw(
    settings: &Settings,
    table: &mut [u32],
    file: &SequenceFile,
) -> Result<Numbers, Refusal>
    ensures { Withdrawn (as_given settings.now) table.old (as_file file.now) (outcome_of result) table.new }
{
    call(Way::Out, settings, table, file)
}
