// Text written into a lent buffer: bytes, words and numbers. A cursor holds the buffer and the place of the next byte;
// each method writes there, as much as there is room for, and moves the place behind it. `write!` and Display would say
// less: where the buffer is full they fail, and nothing is known of what was written before.

#![tactic(auto)]

ghost use Rattle.std.specs.Prelude.{[], ◌∷◌, ◌≡◌, ◌<◌};
ghost use Rattle.text.specs.Text.{Writes, digit, hex_of, decimal_of, decimal_up_to};
ghost use Rattle.text.specs.Figures.{next_text, floats_text, floats_line, number_line};

// A lent buffer, and the place of the next byte.
#[derive(Drop)]
pub struct Cursor<'a> {
    pub buffer: &'a mut [u8],
    pub at: usize,
}

// The digit of a number below 16.
fn digit(d: u64) -> u8
    requires { d < 16 }
    ensures { result ≡ digit d }
{
    if d < 10 {
        b'0' + d as u8
    } else {
        b'A' - 10 + d as u8
    }
}

// The sixteen digits of w, each of four bits, the highest first.
fn hex_digits(w: u64) -> [u8; 16]
    ensures { result ≡ hex_of w }
{
    let mut digits = [0; 16];
    for (i, d) in digits.iter_mut().enumerate() {
        *d = digit((w >> (60 - 4 * i)) % 16);
    }
    digits
}

impl<'a> Cursor<'a> {
    // At the front of the buffer.
    pub fn new(buffer: &'a mut [u8]) -> Cursor<'a>
        ensures same_buffer { result.buffer.ghost_name ≡ buffer.entry.ghost_name }
        ensures held { result.buffer.now ≡ buffer.old }
        ensures front { result.at ≡ 0 }
    {
        Cursor { buffer, at: 0 }
    }
}

impl Cursor<'_> {
    // One byte; a full buffer stays as it is.
    #[tactic(auto, unfolding(crate::specs::Text::write))]
    pub fn byte(&mut self, b: u8)
        ensures { Writes self.old (b ∷ []) self.new }
    {
        if self.at < self.buffer.len() {
            self.buffer[self.at] = b;
            self.at += 1;
        }
    }

    // The bytes of w, one after the other. Where all have room they go in one piece: byte by byte the place, which lies
    // in memory, would be read and written for each.
    pub fn word(&mut self, w: &[u8])
        ensures { Writes self.old w.now self.new }
    {
        let (at, n) = (self.at, w.len());
        if at <= self.buffer.len() && n <= self.buffer.len() - at {
            self.buffer[at..at + n].copy_from_slice(w);
            self.at = at + n;
            return;
        }
        for b in w {
            self.byte(*b);
        }
    }

    // The sixteen digits of w in base 16, in upper case.
    pub fn hex(&mut self, w: u64)
        ensures { Writes self.old (hex_of w) self.new }
    {
        self.word(&hex_digits(w));
    }

    // The last k digits at most.
    #[tactic(auto, unfolding(crate::specs::Text::decimal_up_to), using(crate::proofs::Writing::writing))]
    fn decimal_up_to(&mut self, k: u32, n: u64)
        ensures { Writes self.old (decimal_up_to k n) self.new }
    {
        if k == 0 {
            return;
        }
        if n < 10 {
            self.byte(digit(n));
            return;
        }
        self.decimal_up_to(k - 1, n / 10);
        self.byte(digit(n % 10));
    }

    // n in decimal.
    pub fn decimal(&mut self, n: u64)
        ensures { Writes self.old (decimal_of n) self.new }
    {
        self.decimal_up_to(20, n);
    }

    // ---- numbers as they stand in a line

    // A blank, and the float's 64 bits.
    pub fn float(&mut self, x: f64)
        ensures { Writes self.old (next_text x) self.new }
    {
        self.byte(b' ');
        self.hex(numbers::bits_of(x));
    }

    // Each float with a blank before it.
    fn floats(&mut self, xs: &[f64])
        ensures { Writes self.old (floats_text xs.now) self.new }
    {
        for x in xs {
            self.float(*x);
        }
    }

    // A line of a word and floats.
    pub fn floats_line(&mut self, w: &[u8], v: &[f64])
        ensures { Writes self.old (floats_line w.now v.now) self.new }
    {
        self.word(w);
        self.floats(v);
        self.byte(b'\n');
    }

    // A line, or its end, of a word and a number.
    pub fn number_line(&mut self, w: &[u8], n: u64)
        ensures { Writes self.old (number_line w.now n) self.new }
    {
        self.word(w);
        self.decimal(n);
        self.byte(b'\n');
    }
}
