// The shapes of a listing's lines (document 02, K7): whether a line is the survey line, the line of a class or the total by its shape, and the parts of such
// lines: numbers, words. A line is lent with its LF, if it has one.

#![tactic(auto)]

ghost use Rattle.std.specs.Prelude.{◌≡◌, min};
ghost use Rattle.survey.specs.Grammar.{spelt};
ghost use Rattle.loading.specs.Shapes.{all_digits, is_number, number_between, of_letters, is_total_line, is_count_line, is_classes_end, is_survey_line};
ghost use Rattle.shapes.specs.Needs.{Between};

use settings::HIGHEST_COUNT;
use survey_forms::values;

// A number as far as one above the highest count: from there on it only grows.
const TOO_HIGH: u64 = HIGHEST_COUNT + 1;

// Whether a text has only digits.
#[tactic(auto, unfolding(loading::specs::Shapes::all_digits))]
fn all_digits(digits: &[u8]) -> bool
    ensures { result ≡ all_digits digits.now }
{
    digits.iter().all(|d| d.is_ascii_digit())
}

// Whether a text is a number without a leading zero.
#[tactic(auto, using(crate::proofs::Framed::number_is))]
pub fn is_number(digits: &[u8]) -> bool
    ensures { result ≡ is_number digits.now }
{
    !digits.is_empty() && (digits.len() == 1 || digits[0] != b'0') && all_digits(digits)
}

// The number that digits spell, as far as one above the highest count.
pub fn number_upto(digits: &[u8]) -> u64
    ensures { result ≡ min (spelt 0 digits.now) 4294967296 }
{
    let mut v: u64 = 0;
    for d in digits {
        v = (v * 10 + values::digit(*d)).min(TOO_HIGH);
    }
    v
}

// Whether a text has only letters of the settings.
#[tactic(auto, unfolding(loading::specs::Shapes::of_letters, settings::specs::Settings::is_in))]
pub fn of_letters(letters: &[u8], word: &[u8]) -> bool
    ensures { result ≡ of_letters letters.now word.now }
{
    word.iter().all(|b| settings::is_in(letters, 0, *b))
}

// What stands in a line between a front and a back, where it has both.
fn between<'a>(line: &'a [u8], front: &[u8], back: &[u8]) -> Option<&'a [u8]>
    ensures { Between front.now back.now line.now result }
{
    line.strip_prefix(front)?.strip_suffix(back)
}

// Whether a line is a front, a number and a back.
fn is_number_between(line: &[u8], front: &[u8], back: &[u8]) -> bool
    ensures { result ≡ number_between front.now back.now line.now }
{
    between(line, front, back).is_some_and(is_number)
}

// Whether a line has the total's shape.
#[tactic(auto, unfolding(loading::specs::Shapes::is_total_line))]
pub fn is_total_line(line: &[u8]) -> bool
    ensures { result ≡ is_total_line line.now }
{
    is_number_between(line, b"(total ", b")\n")
}

// Whether a line has the shape of a class's line: a word of k letters, a space and a number.
pub fn is_count_line(letters: &[u8], k: usize, line: &[u8]) -> bool
    ensures { result ≡ is_count_line letters.now k line.now }
{
    let Some(inside) = between(line, b"(count ", b")\n") else {
        return false;
    };
    let Some((word, rest)) = inside.split_at_checked(k) else {
        return false;
    };
    let Some(digits) = rest.strip_prefix(b" ") else {
        return false;
    };
    of_letters(letters, word) && is_number(digits)
}

// Whether a text is what stands behind the mirror's name in the survey line.
#[tactic(auto, unfolding(loading::specs::Shapes::is_classes_end))]
fn is_classes_end(text: &[u8]) -> bool
    ensures { result ≡ is_classes_end text.now }
{
    is_number_between(text, b") (classes ", b"))\n")
}

// Whether a line has the survey line's shape: letters, k and mirror in this order, and behind them its classes.
#[tactic(auto, unfolding(loading::specs::Shapes::is_survey_line, loading::specs::Shapes::classes_last))]
pub fn is_survey_line(line: &[u8]) -> bool
    ensures { result ≡ is_survey_line line.now }
{
    if !values::starts(line, 0, b"(survey ") {
        return false;
    }
    let Some((first, second, third)) = survey_forms::three_forms(line, 8) else {
        return false;
    };
    survey_reader::in_order(first.name, second.name, third.name)
        && is_classes_end(&line[third.from + third.len..])
}
