// Reading the forms of the survey line: their names, and where their values are. For the reader of the line and for the shapes of a listing's lines.

#![tactic(auto)]

pub mod values; // the value of a form

ghost use Rattle.std.specs.Prelude.{◌≡◌, IfSome};
ghost use Rattle.survey.specs.Needs.{Within, InARow};
ghost use Rattle.survey.specs.Reading.{form_from, form_at, next_form};

use survey::{Form, Name};
use values::{number_of, sized, starts, value_end};

// The form whose value starts at a place.
#[tactic(auto, unfolding(survey::specs::Reading::form_from, survey::specs::Reading::form_of))]
fn form_from(input: &[u8], name: Name, from: usize) -> Option<Form>
    ensures value { result ≡ form_from input.now name from }
    ensures inside { IfSome result (Within input.now) }
{
    let len = value_end(input, name, from) - from;
    if !sized(input, name, from, len) {
        return None;
    }
    let number = number_of(input, name, from, len);
    Some(Form {
        name,
        from,
        len,
        number,
    })
}

// The form that stands at a place, without its closing bracket.
#[tactic(auto, unfolding(survey::specs::Reading::form_at))]
pub fn form_at(input: &[u8], at: usize) -> Option<Form>
    ensures value { result ≡ form_at input.now at }
    ensures inside { IfSome result (Within input.now) }
{
    if starts(input, at, b"(letters ") {
        form_from(input, Name::Letters, at + 9)
    } else if starts(input, at, b"(k ") {
        form_from(input, Name::K, at + 3)
    } else if starts(input, at, b"(mirror ") {
        form_from(input, Name::Mirror, at + 8)
    } else {
        None
    }
}

// The form after a form, parted from it by one space; there is none after no form.
#[tactic(auto, unfolding(survey::specs::Reading::next_form))]
pub fn next_form(input: &[u8], f: Option<Form>) -> Option<Form>
    requires { IfSome f (Within input.now) }
    ensures value { result ≡ next_form input.now f }
    ensures inside { IfSome result (Within input.now) }
{
    let f = f?;
    let end = f.from + f.len;
    if !starts(input, end, b") ") {
        return None;
    }
    form_at(input, end + 2)
}

// Three forms in a row, from the first one's place on.
pub fn three_forms(input: &[u8], at: usize) -> Option<(Form, Form, Form)>
    ensures { InARow input.now at result }
{
    let first = form_at(input, at)?;
    let second = next_form(input, Some(first))?;
    let third = next_form(input, Some(second))?;
    Some((first, second, third))
}
