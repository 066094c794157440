// Writing a binary64 as the shortest decimal that reads back as the same binary64: two numbers that differ in a bit differ in the text, and 298.15 stays
// 298.15. A number below 1e-4 has an exponent, 1.25e-5. The digits are those of Steele and White's fixed-point printing: a digit is the last one where what is
// left is within half the gap to the neighbours. A number stands in 1,200 bits, 60 to a limb, the lowest limb first; limbs 18 and 19 are its whole part.
#![tactic(auto)]

ghost use Rattle.std.specs.Prelude.{◌≡◌, cond, ◌+◌, ◌-◌, ◌≤◌, ◌<◌, ◌^◌, take, replicate};
ghost use Rattle.decimal_spelling.specs.Limbs.{ten_by, sum_by, below_by_of, placed_at, whole_part_of, behind};
ghost use Rattle.decimal_spelling.specs.Spelling.{Written, written, put_byte, put_all, parts_of, gap_of, turn_of, turn_from, glyph, digits_by, passed, pass_zeros};
ghost use Rattle.decimal_spelling.specs.Spelling.{whole_text, more_text, tiny_text, plain_text, size_text, spelling};

use std::marker::Model;

const LIMB: u64 = 0x1000_0000_0000_0000;

// A binary64 without its sign: m * 2^(at - 1080), and whether it is a power of two, whose lower neighbour is nearer.
#[derive(Clone, Copy)]
pub struct Parts {
    pub m: u64,
    pub at: usize,
    pub nearer: bool,
}

// A digit, and whether it is the last one.
#[derive(Clone, Copy)]
pub struct Digit {
    pub value: u64,
    pub last: bool,
}

// How many digits were passed, zeros but for the last of them, and that one.
#[derive(Clone, Copy)]
pub struct First {
    pub zeros: u64,
    pub digit: Digit,
}

// What is left of a number, and half the gap to its nearer neighbour.
#[derive(Clone, Copy)]
pub struct Left {
    pub rest: [u64; 20],
    pub gap: [u64; 20],
}

// A line that is written, of at most 4,096 bytes: those that are there, and room behind them. No heap holds it, since the library has none.
// A line may say that more bytes are there than it has room for: nothing is put behind them.
#[derive(Drop)]
pub struct Line {
    bytes: [u8; 4096],
    used: usize,
}

impl Model for Line {
    ghost Value = { Written };

    ghost view = { λ l. written l.bytes l.used };
}

fn glyph_of(digit: u64) -> u8
    ensures { result ≡ glyph digit }
{
    (48 + digit % 10) as u8
}

impl Line {
    pub fn new() -> Line
        ensures { result ≡ written (replicate 4096 0) 0 }
    {
        Line {
            bytes: [0; 4096],
            used: 0,
        }
    }

    // A line with so many of these bytes there.
    pub fn of(bytes: [u8; 4096], used: usize) -> Line
        ensures { result ≡ written bytes used }
    {
        Line { bytes, used }
    }

    // How many bytes are there.
    pub fn used(&self) -> usize
        ensures { result ≡ self.now.used }
    {
        let Line { used, .. } = self;
        *used
    }

    // The bytes that are there.
    pub fn bytes(&self) -> &[u8]
        ensures { result.now ≡ take self.now.used self.now.line }
    {
        if self.used >= 4096 {
            return &self.bytes;
        }
        &self.bytes[..self.used]
    }

    // Puts b after them, where there is room.
    pub fn put(&mut self, b: u8)
        ensures { self.new ≡ put_byte self.old b }
    {
        if self.used < 4096 {
            self.bytes[self.used] = b;
            self.used += 1;
        }
    }

    // Puts a text after them.
    pub fn put_text(&mut self, text: &[u8])
        ensures { self.new ≡ put_all self.old text.now }
    {
        for b in text {
            self.put(*b);
        }
    }

    // Puts a whole number in its decimal digits.
    pub fn put_whole(&mut self, n: u64)
        ensures { self.new ≡ put_all self.old (whole_text 20 n) }
    {
        for k in (0u32..20).rev() {
            let power = 10u64.pow(k);
            if (power <= n) | (k == 0) {
                self.put(glyph_of(n / power));
            }
        }
    }

    // Puts digits up to the last one.
    fn put_digits(&mut self, left: &mut Left)
        ensures { self.new ≡ put_all self.old (digits_by 1100 left.old.rest left.old.gap) }
    {
        for _ in 0..1100usize {
            let d = left.next_digit();
            self.put(glyph_of(d.value));
            if d.last {
                return;
            }
        }
    }

    // Puts what stands behind a point, where the digit before was not the last.
    fn put_more(&mut self, last: bool, left: &mut Left)
        ensures { self.new ≡ put_all self.old (more_text last left.old.rest left.old.gap) }
    {
        if !last {
            self.put(b'.');
            self.put_digits(left);
        }
    }

    // A number below 1e-4, with its exponent.
    fn put_tiny(&mut self, left: &mut Left)
        ensures { self.new ≡ put_all self.old (tiny_text (pass_zeros 1100 0 left.old.rest left.old.gap)) }
    {
        let first = left.first_digit();
        self.put(glyph_of(first.digit.value));
        self.put_more(first.digit.last, left);
        self.put(b'e');
        self.put(b'-');
        self.put_whole(first.zeros);
    }

    // A number without an exponent.
    fn put_plain(&mut self, left: &mut Left)
        ensures { self.new ≡ put_all self.old (plain_text left.old.rest left.old.gap) }
    {
        let whole = take_whole(&mut left.rest);
        self.put_whole(whole);
        let none = is_below(&left.rest, &left.gap);
        self.put_more(none, left);
    }

    // A number that is not below 0.
    fn put_size(&mut self, x: f64)
        ensures { self.new ≡ put_all self.old (size_text x) }
    {
        let p = parts_of(words::to_bits(x));
        let mut left = Left {
            rest: placed(p.m, p.at),
            gap: half_gap(p),
        };
        if (0.0 < x) & (x < 1e-4) {
            self.put_tiny(&mut left);
        } else {
            self.put_plain(&mut left);
        }
    }

    // Puts x after the bytes that are there; '?' for what is not below 2^63 in size.
    pub fn put_number(&mut self, x: f64)
        ensures { self.new ≡ put_all self.old (spelling x) }
    {
        let size = min_max::abs(x);
        if size < 9223372036854775808.0 {
            if min_max::is_negative(x) {
                self.put(b'-');
            }
            self.put_size(size);
        } else {
            self.put(b'?');
        }
    }
}

fn parts_of(bits: u64) -> Parts
    ensures { (result ≡ parts_of bits) × (6 ≤ result.at) }
{
    let exponent = (bits / 0x10_0000_0000_0000) % 2048;
    let m = bits % 0x10_0000_0000_0000;
    if exponent == 0 {
        return Parts {
            m,
            at: 6,
            nearer: false,
        };
    }
    Parts {
        m: m + 0x10_0000_0000_0000,
        at: exponent as usize + 5,
        nearer: (m == 0) & (1 < exponent),
    }
}

// Ten times a number below 2^1080.
fn times_ten(a: &mut [u64; 20])
    ensures { a.new ≡ (ten_by 20 a.old).limbs }
{
    let mut carry = 0;
    for limb in a.iter_mut() {
        let v = *limb % LIMB * 10 + carry;
        *limb = v % LIMB;
        carry = v / LIMB;
    }
}

fn is_below(a: &[u64; 20], b: &[u64; 20]) -> bool
    ensures { result ≡ below_by_of 20 a.now b.now }
{
    let mut below = false;
    for (i, x) in a.iter().enumerate() {
        let y = b[i];
        if *x != y {
            below = *x < y;
        }
    }
    below
}

fn sum_of(a: &[u64; 20], b: &[u64; 20]) -> [u64; 20]
    ensures { result ≡ (sum_by 20 a.now b.now).limbs }
{
    let mut sum = [0u64; 20];
    let mut carry = 0;
    // three arrays in step, by their place
    for i in 0..20 {
        let v = a[i] % LIMB + b[i] % LIMB + carry;
        sum[i] = v % LIMB;
        carry = v / LIMB;
    }
    sum
}

// m * 2^at.
fn placed(m: u64, at: usize) -> [u64; 20]
    ensures { result ≡ placed_at m at }
{
    let mut a = [0u64; 20];
    let limb = at / 60;
    let shift = (at % 60) as u32;
    let up = 2u64.pow(shift);
    let over = 2u64.pow(60 - shift);
    if limb < 19 {
        a[limb] = m % over * up;
        a[limb + 1] = m / over;
    }
    a
}

// Leaves what is behind the whole part, and gives that.
fn take_whole(a: &mut [u64; 20]) -> u64
    ensures { (result ≡ whole_part_of a.old) × (a.new ≡ behind a.old) }
{
    let whole = a[19] % 8 * LIMB + a[18] % LIMB;
    a[18] = 0;
    a[19] = 0;
    whole
}

impl Left {
    // The next digit.
    fn next_digit(&mut self) -> Digit
        ensures { turn_from self.new.rest self.new.gap result.value result.last ≡ turn_of self.old.rest self.old.gap }
    {
        times_ten(&mut self.rest);
        times_ten(&mut self.gap);
        let value = take_whole(&mut self.rest);
        let low = is_below(&self.rest, &self.gap);
        let one = placed(1, 1080);
        let reach = sum_of(&self.rest, &self.gap);
        let high = is_below(&one, &reach);
        if high & (!low | (0x800_0000_0000_0000 <= self.rest[17])) {
            return Digit {
                value: value + 1,
                last: true,
            };
        }
        Digit { value, last: low }
    }

    // Passes the zeros at the start.
    fn first_digit(&mut self) -> First
        ensures { passed result.zeros self.new.rest self.new.gap result.digit.value result.digit.last ≡ pass_zeros 1100 0 self.old.rest self.old.gap }
    {
        for passed in 0..1100 {
            let digit = self.next_digit();
            if (digit.value != 0) | digit.last {
                return First {
                    zeros: passed + 1,
                    digit,
                };
            }
        }
        let digit = Digit {
            value: 0,
            last: false,
        };
        First { zeros: 1100, digit }
    }
}

// Half the gap to the nearer neighbour.
fn half_gap(p: Parts) -> [u64; 20]
    requires { 6 ≤ p.at }
    ensures { result ≡ gap_of p }
{
    if p.nearer {
        return placed(1, p.at - 2);
    }
    placed(1, p.at - 1)
}
