// Reading the survey line that the counter's input starts with: document 01, "Listing and counter program", and document 02, K5.
// The line is read from left to right: the opening text, three forms, the closing bracket, the line's end.

#![tactic(auto)]

ghost use Rattle.std.specs.Prelude.{◌≡◌};
ghost use Rattle.survey.specs.Reading.{end_after, in_order, each_once, by_order, line_from, read_input};
ghost use Rattle.survey.specs.Claims.{ReadsLine};

use settings::Refusal;
use survey::{Name, Survey};
use survey_forms::three_forms;
use survey_forms::values::starts;

// The place after the line whose last value ends before a place.
#[tactic(auto, unfolding(survey::specs::Reading::end_after))]
fn end_after(input: &[u8], at: usize) -> Option<usize>
    ensures { result ≡ end_after input.now at }
{
    if starts(input, at, b"))\n") {
        Some(at + 3)
    } else if starts(input, at, b"))\r\n") {
        Some(at + 4)
    } else if starts(input, at, b"))") && at + 2 == input.len() {
        Some(at + 2)
    } else {
        None
    }
}

// Whether three forms with these names stand each in its position; for `shapes` too.
#[tactic(auto, unfolding(survey::specs::Reading::in_order))]
pub fn in_order(a: Name, b: Name, c: Name) -> bool
    ensures { result ≡ in_order a b c }
{
    a == Name::Letters && b == Name::K && c == Name::Mirror
}

// Whether the three names are there each once: no two are the same.
#[tactic(auto, unfolding(survey::specs::Reading::each_once))]
fn each_once(a: Name, b: Name, c: Name) -> bool
    ensures { result ≡ each_once a b c }
{
    a != b && b != c && c != a
}

// The answer on three forms with these names, which in order are this survey line.
#[tactic(auto, unfolding(survey::specs::Reading::by_order))]
fn by_order(a: Name, b: Name, c: Name, survey: Survey) -> Result<Survey, Refusal>
    ensures { result ≡ by_order a b c survey }
{
    if in_order(a, b, c) {
        Ok(survey)
    } else if each_once(a, b, c) {
        Err(Refusal::FormOrder)
    } else {
        Err(Refusal::NoSurveyLine)
    }
}

// Three forms in a row, from the first form's place on.
#[tactic(auto, unfolding(survey::specs::Reading::line_from, survey::specs::Reading::head_of, survey::specs::Reading::line_end))]
fn line_from(input: &[u8], at: usize) -> Result<Survey, Refusal>
    ensures { result ≡ line_from input.now at }
{
    let (first, second, third) = three_forms(input, at).ok_or(Refusal::NoSurveyLine)?;
    let next = end_after(input, third.from + third.len).ok_or(Refusal::NoSurveyLine)?;
    let survey = Survey {
        from: first.from,
        len: first.len,
        k: second.number as usize,
        mirror: third.number,
        next,
    };
    by_order(first.name, second.name, third.name, survey)
}

// Reads the survey line that an input starts with.
pub fn read_line(input: &[u8]) -> Result<Survey, Refusal>
    ensures { ReadsLine input.now (read_input input.now) result }
{
    if !starts(input, 0, b"(survey ") {
        return Err(Refusal::NoSurveyLine);
    }
    line_from(input, 8)
}
