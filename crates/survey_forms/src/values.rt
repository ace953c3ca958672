// The value of a form: which bytes it may have, how long it may be, and what number it stands for.
ghost use Rattle.std.specs.Prelude.{◌≡◌, true, ◌+◌, ◌-◌, ◌≤◌, ◌<◌, length, take, drop, IsTrue};
ghost use Rattle.survey.specs.Grammar.{spelt};
ghost use Rattle.survey.specs.Reading.{starts_with, stretch, value_byte, sized as Sized, mirror_number, number_of};

use survey::Name;

// The input from a place on: nothing where the place is behind it.
fn rest(input: &[u8], at: usize) -> &[u8]
    ensures { result.now ≡ drop at input.now }
{
    input.get(at..).unwrap_or_default()
}

// Whether a text stands at a place.
#[tactic(auto, using(survey::proofs::TextLaws::starts_is))]
pub fn starts(input: &[u8], at: usize, text: &[u8]) -> bool
    ensures value { result ≡ starts_with text.now (drop at input.now) }
    ensures inside { IsTrue result → 0 < length text.now → at + length text.now ≤ length input.now }
{
    rest(input, at).starts_with(text)
}

// Whether the value of a form may have this byte.
#[tactic(auto, unfolding(survey::specs::Reading::value_byte, settings::specs::Settings::is_in))]
fn value_byte(name: Name, b: u8) -> bool
    ensures { result ≡ value_byte name b }
{
    match name {
        Name::Letters => !b"() \r\n".contains(&b),
        Name::K => b.is_ascii_digit(),
        Name::Mirror => b.is_ascii_lowercase(),
    }
}

// The place after a form's value.
#[tactic(auto, using(survey::proofs::TextLaws::stretch_is))]
pub fn value_end(input: &[u8], name: Name, from: usize) -> usize
    ensures { result ≡ from + stretch (value_byte name) (drop from input.now) }
{
    from + rest(input, from)
        .iter()
        .take_while(|b| value_byte(name, **b))
        .count()
}

// Whether a form's value may have this length: one or more, and for k 1 to 3 digits with no leading zero except 0 itself.
#[tactic(auto, unfolding(survey::specs::Reading::sized))]
pub fn sized(input: &[u8], name: Name, from: usize, len: usize) -> bool
    ensures { result ≡ Sized name (drop from input.now) len }
{
    match name {
        Name::Letters | Name::Mirror => len > 0,
        Name::K => len > 0 && len <= 3 && (len == 1 || !starts(input, from, b"0")),
    }
}

// What a digit adds.
pub fn digit(b: u8) -> u64
    ensures { result ≡ b - 48 }
{
    u64::from(b.saturating_sub(b'0'))
}

// The number that up to 3 digits spell.
fn spelt_at(input: &[u8], from: usize, len: usize) -> u64
    requires { (len ≤ 3) × (from + len ≤ length input.now) }
    ensures { result ≡ spelt 0 (take len (drop from input.now)) }
{
    let mut v: u64 = 0;
    for b in &input[from..from + len] {
        v = v * 10 + digit(*b);
    }
    v
}

// The number of the mirror whose name stands at a place.
#[tactic(auto, unfolding(survey::specs::Reading::mirror_number))]
fn mirror_number(input: &[u8], from: usize) -> u64
    ensures { result ≡ mirror_number (drop from input.now) }
{
    if starts(input, from, b"reversal)") {
        0
    } else if starts(input, from, b"complement)") {
        1
    } else {
        2
    }
}

// The number that a form's value stands for.
#[tactic(auto, unfolding(survey::specs::Reading::number_of))]
pub fn number_of(input: &[u8], name: Name, from: usize, len: usize) -> u64
    requires { (Sized name (drop from input.now) len ≡ true) × (from + len ≤ length input.now) }
    ensures { result ≡ number_of name (drop from input.now) len }
{
    match name {
        Name::Letters => 0,
        Name::K => spelt_at(input, from, len),
        Name::Mirror => mirror_number(input, from),
    }
}
