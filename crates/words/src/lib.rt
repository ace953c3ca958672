// Words and their codes: the code of a word, the word of a code, a word's mirror, and the pick of the lower of two words.
// The calls take the settings as they are and refuse what no rule allows; the functions below them work on good settings.

#![tactic(auto)]

pub mod letters; // from bytes to ranks and back

ghost use Rattle.std.specs.Prelude.{◌≡◌};
ghost use Rattle.settings.specs.Given.{as_given};
ghost use Rattle.settings.specs.Grounds.{ground, ground_at, too_short, outcome_of, fault_of};
ghost use Rattle.encoding.specs.Calls.{coding, wrong_length, foreign_from, pick_ground};
ghost use Rattle.words.specs.Answers.{of_coding, WritesWord, WritesMirror, Picked};
ghost use Rattle.words.specs.Needs.{none_applies};

use ranks::Code;
use settings::{Refusal, Settings};

// Ground 5, where a word's length is not k.
fn check_length(word: &[u8], k: usize) -> Result<(), Refusal>
    ensures { fault_of result ≡ ground 5 (wrong_length k word.now) }
{
    if word.len() == k {
        Ok(())
    } else {
        Err(Refusal::WrongLength)
    }
}

// Ground 7, where a lent buffer has less room than k bytes.
fn check_room(room: usize, k: usize) -> Result<(), Refusal>
    ensures { fault_of result ≡ ground_at 7 (too_short room k) }
{
    if room < k {
        Err(Refusal::ShortBuffer(k))
    } else {
        Ok(())
    }
}

// Ground 9, where a byte of a word is no letter.
fn check_letters(letters: &[u8], word: &[u8]) -> Result<(), Refusal>
    ensures { fault_of result ≡ ground_at 9 (foreign_from letters.now 0 word.now) }
{
    match letters::foreign_at(letters, word) {
        Some(i) => Err(Refusal::ForeignByte(i)),
        None => Ok(()),
    }
}

// The code of a word. Refused by the first of the grounds 1, 2, 4, 5 and 9.
pub fn code_of(settings: &Settings, word: &[u8]) -> Result<Code, Refusal>
    ensures { of_coding result ≡ coding (as_given settings.now) word.now }
{
    let st = settings.check()?;
    check_length(word, settings.k)?;
    check_letters(settings.letters, word)?;
    Ok(letters::word_code(settings.letters, word, st.mirror))
}

// Writes the canonical word with a code, in capitals, to the first k bytes of out. Refused by the first of the grounds 1, 2, 4, 7 and 8.
pub fn word_of(settings: &Settings, q: Code, out: &mut [u8]) -> Result<usize, Refusal>
    ensures { WritesWord (as_given settings.now) q.0 out.old (outcome_of result) out.new }
{
    let st = settings.check()?;
    check_room(out.len(), settings.k)?;
    if q.0 >= st.classes {
        return Err(Refusal::NoSuchCode);
    }
    letters::write_word(settings.letters, settings.k, st.mirror, q.0, out);
    Ok(settings.k)
}

// Writes a word's mirror, in capitals, to the first k bytes of out. Refused by the first of the grounds 1, 2, 4, 5, 7 and 9.
pub fn mirror_of(settings: &Settings, word: &[u8], out: &mut [u8]) -> Result<usize, Refusal>
    ensures { WritesMirror (as_given settings.now) word.now out.old (outcome_of result) out.new }
{
    let st = settings.check()?;
    check_length(word, settings.k)?;
    check_room(out.len(), settings.k)?;
    check_letters(settings.letters, word)?;
    letters::write_mirror(settings.letters, word, st.mirror, out);
    Ok(settings.k)
}

// Whether no ground applies to coding either of two words.
fn can_pick(settings: &Settings, first: &[u8], second: &[u8]) -> bool
    ensures { result ≡ none_applies (pick_ground (as_given settings.now) first.now second.now) }
{
    code_of(settings, first).is_ok() && code_of(settings, second).is_ok()
}

// The one of two words with the lower plain rank, the first if they are equal; an empty part of the first where coding either is refused.
pub fn pick<'a>(settings: &Settings, first: &'a [u8], second: &'a [u8]) -> &'a [u8]
    ensures { Picked (as_given settings.now) first.entry second.entry result }
{
    if !can_pick(settings, first, second) {
        return &first[..0];
    }
    if letters::plain_of(settings.letters, first).0
        <= letters::plain_of(settings.letters, second).0
    {
        return first;
    }
    second
}
