// The lines of a text: where a line ends, where the next one starts, and where a line's text ends, which is the line without its LF or CR LF.

#![tactic(auto)]

ghost use Rattle.std.specs.Prelude.{◌≡◌, true, false, ◌+◌, ◌<◌, ◌≤◌, length, drop, slice_index, MatchOption};
ghost use Rattle.lines.specs.Lines.{text_of, first_byte_is};
ghost use Rattle.lines.specs.Needs.{first_line, LineEnd, AllPass};

// Whether the byte at a place is there and is b.
pub fn byte_is(text: &[u8], at: usize, b: u8) -> bool
    ensures { result ≡ first_byte_is b (drop at text.now) }
{
    text.get(at).is_some_and(|x| *x == b)
}

// Whether the bytes of a block all pass a test. No branch in the loop, so that they are judged at once.
fn all_pass<F: Fn(u8) -> bool>(block: &[u8; 16], passes: &F) -> bool
    requires { F.IsAlwaysCallable passes.now }
    ensures { result ≡ true → AllPass (F.post passes.now) block.now 16 }
{
    let mut all = true;
    for b in block {
        all &= passes(*b);
    }
    all
}

// The first place of a text whose byte fails a test, if there is one: past the blocks of 16 bytes that all pass, and then byte by byte.
pub fn first_failing<F: Fn(u8) -> bool>(text: &[u8], passes: F) -> Option<usize>
    requires { F.IsAlwaysCallable passes }
    ensures { MatchOption result (AllPass (F.post passes) text.now (length text.now))
        (λ p. (p < length text.now) × F.post passes (slice_index text.now p) false × AllPass (F.post passes) text.now p) }
{
    let mut i = 0;
    while let Some(block) = text[i..].first_chunk::<16>() {
        if !all_pass(block, &passes) {
            break;
        }
        i += 16;
    }
    for (j, b) in text[i..].iter().enumerate() {
        if !passes(*b) {
            return Some(i + j);
        }
    }
    None
}

// The first place from `from` on whose byte is LF, or the text's end.
pub fn line_end(text: &[u8], from: usize) -> usize
    requires { from ≤ length text.now }
    ensures { LineEnd text.now from result }
{
    match first_failing(&text[from..], |b| b != b'\n') {
        Some(p) => from + p,
        None => text.len(),
    }
}

// The place behind the line that starts at a place; behind the text that place itself.
pub fn after_line(text: &[u8], from: usize) -> usize
    ensures { result ≡ from + length (first_line (drop from text.now)) }
{
    if text.len() <= from {
        return from;
    }
    let e = line_end(text, from);
    if e < text.len() { e + 1 } else { e }
}

// The place behind a line's text, given the place behind the line: before its LF or CR LF.
pub fn text_end(text: &[u8], from: usize, after: usize) -> usize
    requires { after ≡ from + length (first_line (drop from text.now)) }
    ensures { result ≡ from + length (text_of (first_line (drop from text.now))) }
{
    if after <= from {
        return after;
    }
    let line = &text[from..after];
    if line.ends_with(b"\r\n") {
        after - 2
    } else if line.ends_with(b"\n") {
        after - 1
    } else {
        after
    }
}
