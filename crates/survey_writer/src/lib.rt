// Writing the survey line that we print: the settings' forms, and then the number of classes (document 02, K6).

#![tactic(auto)]

ghost use Rattle.std.specs.Prelude.{◌≡◌, ◌++◌};
ghost use Rattle.laws.specs.Text.{bytes};
ghost use Rattle.settings.specs.Given.{as_given};
ghost use Rattle.settings.specs.Settings.{settings_of};
ghost use Rattle.texts.specs.Needs.{Writes};
ghost use Rattle.survey.specs.Line.{mirror_name, survey_line};

use settings::Settings;
use texts::Writer;

// The mirror's form in the survey line up to its closing bracket, with what stands before it.
fn put_mirror(w: &mut Writer, mirror: u64)
    ensures { Writes w.old w.new (bytes ") (mirror " ++ mirror_name mirror) }
{
    if mirror == 0 {
        w.put_text(b") (mirror reversal");
    } else {
        w.put_text(b") (mirror complement");
    }
}

// The survey line: the settings and the number of their classes. A listing begins with it, and `loader` compares a line with it.
pub fn put_survey(w: &mut Writer, settings: &Settings, classes: usize)
    requires { classes ≡ (settings_of (as_given settings.now)).classes }
    ensures { Writes w.old w.new (survey_line (as_given settings.now)) }
{
    w.put_text(b"(survey (letters ");
    w.put_text(settings.letters);
    w.put_field(b") (k ", settings.k as u64);
    put_mirror(w, settings.mirror);
    w.put_field(b") (classes ", classes as u64);
    w.put_text(b"))\n");
}
