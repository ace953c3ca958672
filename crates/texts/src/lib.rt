// Writing texts into a lent buffer: bytes, and numbers in decimal.

#![tactic(auto)]

ghost use Rattle.std.specs.Prelude.{◌≡◌, ◌%◌, ◌+◌, ◌≤◌, [], ◌∷◌, ◌++◌, length};
ghost use Rattle.texts.specs.Decimals.{decimal};

// A lent buffer and the place reached in it, both of which fit 64 bits. Bytes that the buffer has no place for are counted and not written.
#[derive(Drop)]
pub struct Writer<'a> {
    pub out: &'a mut [u8],
    pub at: usize,
    ghost counted: { at ≤ 18446744073709551615 },
    ghost bounded: { length out.now ≤ 18446744073709551615 },
}

impl<'a> Writer<'a> {
    ghost use Rattle.texts.specs.Needs.{Writes};

    // A writer at the buffer's start.
    pub fn new(out: &'a mut [u8]) -> Writer<'a>
        ensures buffer { result.out.ghost_name ≡ out.entry.ghost_name }
        ensures unwritten { result.out.now ≡ out.old }
        ensures start { result.at ≡ 0 }
    {
        Writer { out, at: 0 }
    }

    // The place after all that was written: a text's length.
    pub fn place(&self) -> usize
        ensures { result ≡ self.now.at }
    {
        self.at
    }

    // One byte. The last place is 2^64 - 1.
    #[inline]
    pub fn put_byte(&mut self, b: u8)
        ensures { Writes self.old self.new (b ∷ []) }
    {
        if self.at < self.out.len() {
            self.out[self.at] = b;
        }
        self.at = self.at.saturating_add(1);
    }

    // The bytes of a text.
    pub fn put_text(&mut self, text: &[u8])
        ensures { Writes self.old self.new text.now }
    {
        for b in text {
            self.put_byte(*b);
        }
    }

    // A number in decimal.
    fn put_decimal(&mut self, n: u64)
        ensures { Writes self.old self.new (decimal n) }
    {
        if n >= 10 {
            self.put_decimal(n / 10);
        }
        self.put_byte(last_digit(n));
    }

    // A text and then a number.
    pub fn put_field(&mut self, text: &[u8], n: u64)
        ensures { Writes self.old self.new (text.now ++ decimal n) }
    {
        self.put_text(text);
        self.put_decimal(n);
    }
}

// The last digit of a number, as it is written.
fn last_digit(n: u64) -> u8
    ensures { result ≡ 48 + n % 10 }
{
    48 + (n % 10) as u8
}

// How many digits a number has: 0 has one, as 1 has.
pub fn digit_count(n: u64) -> usize
    ensures { result ≡ length (decimal n) }
{
    n.max(1).ilog10() as usize + 1
}
