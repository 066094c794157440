// Rows of numbers in a string of bytes, from a word on, and how a run ended. A row is tested first: one that is read for
// words that are whole and finite, one that is written for room and no NaN. Nearly every row passes and is copied; any other goes word by word.
// The word `at` is a constant at each caller: a type for its limit is no plainer.
#![tactic(auto)]

ghost use Rattle.std.specs.Prelude.{◌≡◌, ◌+◌, ◌*◌, ◌≤◌, T, length};
ghost use Rattle.iterate.specs.Iterate.{first_by};
ghost use Rattle.codec.specs.Words.{float_at, put_places};
ghost use Rattle.image_rows.specs.Rows.{finite_pattern, finite_words, no_nan_of};
ghost use Rattle.image_rows.specs.Written.{put_ending};

use codec::{read_f64, word_from, write_bytes, write_f64, write_word};

// Whether a word is the pattern of a finite number: its exponent is not all ones.
#[tactic(auto, unfolding(crate::specs::Rows::finite_pattern))]
fn finite_pattern(n: u64) -> bool
    ensures { result ≡ finite_pattern n }
{
    n / 0x10_0000_0000_0000 % 0x800 != 0x7ff
}

// Whether the n words from `at` on, all whole, are patterns of finite numbers.
// By number: a word is known by it.
fn finite_words(s: &[u8], at: usize, n: usize) -> bool
    requires { (at + n) * 8 ≤ length s.now }
    ensures { result ≡ finite_words s.now at n }
{
    let mut ok = true;
    for i in 0..n {
        ok = ok & finite_pattern(word_from(s, (at + i) * 8));
    }
    ok
}

// Fills `out` with the numbers from word `at` on, all finite.
fn read_numbers(s: &[u8], at: usize, out: &mut [f64])
    requires { ((at + length out.old) * 8 ≤ length s.now) × T (finite_words s.now at (length out.old)) }
    ensures { out.new ≡ first_by (length out.old) (λ k. float_at s.now (at + k)) out.old }
{
    for (i, x) in out.iter_mut().enumerate() {
        *x = f64::from_bits(word_from(s, (at + i) * 8));
    }
}

// The same whatever the words are.
fn read_any(s: &[u8], at: usize, out: &mut [f64])
    requires { at ≤ 4096 }
    ensures { out.new ≡ first_by (length out.old) (λ k. float_at s.now (at + k)) out.old }
{
    for (i, x) in out.iter_mut().enumerate() {
        *x = read_f64(s, at + i);
    }
}

// Fills `out` with the numbers from word `at` on.
pub fn read_places(s: &[u8], at: usize, out: &mut [f64])
    requires { at ≤ 4096 }
    ensures { out.new ≡ first_by (length out.old) (λ k. float_at s.now (at + k)) out.old }
{
    if at + out.len() <= s.len() / 8 && finite_words(s, at, out.len()) {
        read_numbers(s, at, out);
    } else {
        read_any(s, at, out);
    }
}

// Whether no place holds a NaN.
fn no_nan(c: &[f64]) -> bool
    ensures { result ≡ no_nan_of c.now }
{
    let mut ok = true;
    for x in c {
        ok = ok & (*x == *x);
    }
    ok
}

// Writes the places of c, none a NaN, as the words from `at` on, all whole.
fn write_numbers(s: &mut [u8], at: usize, c: &[f64])
    requires { ((at + length c.now) * 8 ≤ length s.old) × T (no_nan_of c.now) }
    ensures { s.new ≡ put_places (length c.now) s.old at c.now }
{
    for (i, x) in c.iter().enumerate() {
        write_bytes(s, (at + i) * 8, x.to_bits());
    }
}

// The same whatever the places and the words are.
fn write_any(s: &mut [u8], at: usize, c: &[f64])
    requires { at ≤ 4096 }
    ensures { s.new ≡ put_places (length c.now) s.old at c.now }
{
    for (i, x) in c.iter().enumerate() {
        write_f64(s, at + i, *x);
    }
}

// Writes the places of c as the words from `at` on.
pub fn write_places(s: &mut [u8], at: usize, c: &[f64])
    requires { at ≤ 4096 }
    ensures { s.new ≡ put_places (length c.now) s.old at c.now }
{
    if at + c.len() <= s.len() / 8 && no_nan(c) {
        write_numbers(s, at, c);
    } else {
        write_any(s, at, c);
    }
}

// Writes how a run ended and its count of rows as the words from `at` on.
// The ending is its number, as the image has it.
#[tactic(auto, unfolding(crate::specs::Written::put_ending))]
pub fn put_ending(s: &mut [u8], at: usize, ending: u64, rows: usize)
    requires { at ≤ 2048 }
    ensures { s.new ≡ put_ending s.old at ending rows }
{
    write_word(s, at, ending);
    write_word(s, at + 1, rows as u64);
}
