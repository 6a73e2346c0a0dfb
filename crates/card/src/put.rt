// Bytes laid into a buffer, one behind another.
ghost use Rattle.std.specs.Prelude.{◌≡◌, [], ◌∷◌, ◌++◌, ◌+◌, ◌^◌, ◌<◌, length};
ghost use Rattle.card.specs.Text.{comma, digit_of, zeros_of, dec};
ghost use Rattle.card.specs.Card.{line_of};
ghost use Rattle.card.specs.Laid.{LaidOn};

// Kept (point 5): how far the place may go stays a clause, for each method asks that its own bytes fit and no more; a bound in the type would ask more.

// A buffer, and the place of its next byte. Where there is no room a byte is counted and not written, so that a card is measured by laying it into nothing.
#[derive(Drop)]
pub struct Sheet<'a> {
    pub buffer: &'a mut [u8],
    pub at: usize,
}

// The last decimal digit.
pub fn digit_of(n: usize) -> u8
    ensures { result ≡ digit_of n }
{
    // Kept (point 4): `as` is proved to lose nothing; `u8::try_from` would make a Result that cannot be an error.
    b'0' + (n % 10) as u8
}

// How many of four digits are zeros in front.
fn zeros_of(n: usize) -> usize
    ensures { result ≡ zeros_of n }
{
    match n {
        0..=9 => 3,
        10..=99 => 2,
        100..=999 => 1,
        _ => 0,
    }
}

impl<'a> Sheet<'a> {
    pub fn put(&mut self, byte: u8)
        requires { self.old.at + 1 < 2 ^ 64 }
        ensures { LaidOn self.old (byte ∷ []) self.new }
    {
        if self.at < self.buffer.len() {
            self.buffer[self.at] = byte;
        }
        self.at += 1;
    }

    pub fn put_all(&mut self, bytes: &[u8])
        requires { self.old.at + length bytes.now < 2 ^ 64 }
        ensures { LaidOn self.old bytes.now self.new }
    {
        for &byte in bytes {
            self.put(byte);
        }
    }

    // The decimal digits of a number up to 9999.
    // Kept (point 4): no `Display`, for `put_number` promises of every number the last four digits (`dec`), and where there is no room it counts.
    #[tactic(auto, using(crate::proofs::PutLaws::digits_laid))]
    pub fn put_number(&mut self, n: usize)
        requires { self.old.at + 4 < 2 ^ 64 }
        ensures { LaidOn self.old (dec n) self.new }
    {
        let digits = [
            digit_of(n / 1000),
            digit_of(n / 100),
            digit_of(n / 10),
            digit_of(n),
        ];
        let from = zeros_of(n);
        self.put_all(&digits[from..]);
    }

    // A line of a key and one number.
    #[tactic(auto, using(crate::proofs::PutLaws::dec_short))]
    pub fn put_line(&mut self, key: &[u8], n: usize)
        requires { self.old.at + length key.now + 5 < 2 ^ 64 }
        ensures { LaidOn self.old (line_of (key.now ++ dec n)) self.new }
    {
        self.put_all(key);
        self.put_number(n);
        self.put(b'\n');
    }

    // `e,` or `u,`
    #[tactic(auto, using(crate::proofs::PutLaws::dec_short))]
    pub fn put_comma(&mut self, n: usize)
        requires { self.old.at + 5 < 2 ^ 64 }
        ensures { LaidOn self.old (dec n ++ comma ∷ []) self.new }
    {
        self.put_number(n);
        self.put(b',');
    }
}
