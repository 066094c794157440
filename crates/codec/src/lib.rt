// Words and numbers in a string of bytes: word k is bytes 8k to 8k + 7, the lowest first. A word that
// is not whole is read as 0 and never written.
#![tactic(auto)]

ghost use Rattle.std.specs.Prelude.{◌≡◌, cond, ◌+◌, ◌≤◌, length};
ghost use Rattle.codec.specs.Words.{bytes_at, word_at, put_bytes, put_word, float_at, put_float};

// The eight bytes from place a on as a number.
pub fn word_from(s: &[u8], a: usize) -> u64
    requires { a + 8 ≤ length s.now }
    ensures { result ≡ bytes_at 7 s.now a }
{
    let bytes: [u8; 8] = s[a..a + 8].try_into().unwrap();
    u64::from_le_bytes(bytes)
}

// Word k.
pub fn read_word(s: &[u8], k: usize) -> u64
    ensures { result ≡ word_at s.now k }
{
    if s.len() / 8 <= k {
        return 0;
    }
    word_from(s, k * 8)
}

// Writes the eight bytes of n from place a on.
pub fn write_bytes(s: &mut [u8], a: usize, n: u64)
    requires { a + 8 ≤ length s.old }
    ensures { s.new ≡ put_bytes 7 s.old a n }
{
    s[a..a + 8].copy_from_slice(&n.to_le_bytes());
}

// Writes n as word k.
pub fn write_word(s: &mut [u8], k: usize, n: u64)
    ensures { s.new ≡ put_word s.old k n }
{
    if k < s.len() / 8 {
        write_bytes(s, k * 8, n);
    }
}

// The number whose bits are word k; every pattern of a NaN gives the NaN.
pub fn read_f64(s: &[u8], k: usize) -> f64
    ensures { result ≡ float_at s.now k }
{
    words::from_bits(read_word(s, k))
}

// Writes the bits of x as word k.
pub fn write_f64(s: &mut [u8], k: usize, x: f64)
    ensures { s.new ≡ put_float s.old k x }
{
    write_word(s, k, words::to_bits(x));
}

// 1 for yes, 0 for no.
pub fn flag(b: bool) -> u64
    ensures { result ≡ cond b 1 0 }
{
    u64::from(b)
}
