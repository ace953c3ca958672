// The counter program as one function, from the bytes of its input to those of its output.

#![tactic(auto)]

ghost use Rattle.std.specs.Prelude.{◌≡◌, ◌≤◌, length};
ghost use Rattle.settings.specs.Given.{as_given};
ghost use Rattle.settings.specs.Grounds.{ground_of};
ghost use Rattle.files.specs.File.{as_file};
ghost use Rattle.texts.specs.Needs.{Writes};
ghost use Rattle.program.specs.Program.{file_line, refused_line, cleared_table, survey_text, kind_by_first_byte, program_text, Prints};
ghost use Rattle.program.specs.Needs.{WritesOrRefuses};

use fasta::Numbers;
use files::{Kind, SequenceFile};
use settings::{Refusal, Settings};
use texts::Writer;

// The most bytes of an input.
const MOST_INPUT: usize = 65536;

// The line of a refusal, which is then the whole output.
fn put_refused(w: &mut Writer, f: Refusal)
    ensures writes { Writes w.old w.new (refused_line (ground_of f)) }
    ensures short { length (refused_line (ground_of f)) ≤ 100 }
{
    w.put_field(b"(refused ", f.number());
    w.put_field(b" ", f.place());
    w.put_text(b")\n");
}

// The file line: the file's five numbers.
fn put_file_line(w: &mut Writer, n: Numbers)
    ensures writes { Writes w.old w.new (file_line n) }
    ensures short { length (file_line n) ≤ 200 }
{
    w.put_field(b"(file (records ", n.records as u64);
    w.put_field(b") (letters ", n.letters as u64);
    w.put_field(b") (foreign ", n.foreign as u64);
    w.put_field(b") (edge ", n.edge as u64);
    w.put_field(b") (windows ", n.windows as u64);
    w.put_text(b"))\n");
}

// The program's places, all 0.
fn cleared_table() -> [u32; 16384]
    ensures { result ≡ cleared_table }
{
    [0; 16384]
}

// The kind of a file by its first byte.
#[tactic(auto, unfolding(crate::specs::Program::kind_by_first_byte))]
fn kind_by_first_byte(file: &[u8]) -> Kind
    ensures { result ≡ kind_by_first_byte file.now }
{
    if lines::byte_is(file, 0, b'@') {
        Kind::Fastq
    } else {
        Kind::Fasta
    }
}

// The output for settings and a file; nothing where it is refused.
fn put_counted(w: &mut Writer, settings: &Settings, file: &SequenceFile) -> Result<(), Refusal>
    ensures { WritesOrRefuses (survey_text (as_given settings.now) (as_file file.now)) w.old w.new result }
{
    let st = settings.check()?;
    let mut table = cleared_table();
    let n = table::add(settings, &mut table, file)?;
    let classes = st.classes as usize;
    listing::put_listing(w, settings, &table[..classes]);
    put_file_line(w, n);
    Ok(())
}

// The output for an input; nothing where it is refused.
fn put_answer(w: &mut Writer, input: &[u8]) -> Result<(), Refusal>
    ensures { WritesOrRefuses (program_text input.now) w.old w.new result }
{
    if MOST_INPUT < input.len() {
        return Err(Refusal::LongInput);
    }
    let survey = survey_reader::read_line(input)?;
    let settings = Settings {
        letters: &input[survey.from..survey.from + survey.len],
        k: survey.k,
        mirror: survey.mirror,
    };
    let bytes = &input[survey.next..];
    let file = SequenceFile {
        kind: kind_by_first_byte(bytes),
        bytes,
    };
    put_counted(w, &settings, &file)
}

// The output for an input, or the line of its refusal.
fn put_output(w: &mut Writer, input: &[u8])
    ensures writes { Writes w.old w.new (program_text input.now) }
    ensures short { length (program_text input.now) ≤ 2097152 }
{
    if let Err(f) = put_answer(w, input) {
        put_refused(w, f);
    }
}

// The program: writes its output for an input to the start of out, as far as out goes, and answers the output's length.
pub fn run(input: &[u8], out: &mut [u8]) -> usize
    ensures { Prints (program_text input.now) out.old result out.new }
{
    let mut w = Writer::new(out);
    put_output(&mut w, input);
    w.place()
}
