// The lines of a recorded load.
ghost use Rattle.std.specs.Prelude.{◌≡◌, ◌+◌, ◌≤◌, is_ok, length};
ghost use Rattle.std.specs.Result.{result_ok};
ghost use Rattle.replay_run.specs.Lines.{digits_at, number_at, line_at, none_left_of};
ghost use Rattle.replay_run.specs.Answers.{line_answered};
ghost use Rattle.replay_run.specs.Reads.{digit_read, word_of, line_read};

// The bytes of a line.
const LINE_BYTES: usize = 34;

// The numbers of a line.
#[derive(Clone, Copy)]
pub struct LoadLine {
    pub dt: f64,
    pub current_a: f64,
}

// The value of a hexadecimal digit: lower case is not taken.
#[tactic(auto, using(std::proofs::lemmas::Bool::Decides::nat_tests), unfolding(crate::specs::Reads::digit_read, crate::specs::Lines::digit_of))]
fn digit(b: u8) -> Option<u64>
    ensures { result ≡ digit_read b }
{
    match b {
        b'0'..=b'9' => Some(u64::from(b - b'0')),
        b'A'..=b'F' => Some(u64::from(b - b'A') + 10),
        _ => None,
    }
}

// The sixteen bytes from place a on as a word of hexadecimal digits, the highest first. Where one is none, it counts as 0 in the word of the refusal.
fn hex_word(text: &[u8], a: usize) -> Result<u64, u64>
    requires { a + 16 ≤ length text.now }
    ensures digits { is_ok result ≡ digits_at text.now a 16 }
    ensures bits { word_of result ≡ number_at text.now a 16 }
{
    let mut digits = true;
    let mut bits = 0;
    for b in &text[a..a + 16] {
        let value = digit(*b);
        digits = digits & value.is_some();
        bits = bits * 16 + value.unwrap_or(0);
    }
    if digits { Ok(bits) } else { Err(bits) }
}

// A word, refused or not.
fn bits_of(word: Result<u64, u64>) -> u64
    ensures { result ≡ word_of word }
{
    match word {
        Ok(bits) | Err(bits) => bits,
    }
}

// Line k. Where it is not well formed, the refusal has the numbers that stand there, and +0 where the text has no line k.
pub fn line_at(text: &[u8], k: usize) -> Result<LoadLine, LoadLine>
    ensures numbers { line_answered result ≡ line_at text.now k }
    ensures read { result_ok result ≡ line_read (line_at text.now k) }
{
    if text.len() / LINE_BYTES <= k {
        return Err(LoadLine {
            dt: 0.0,
            current_a: 0.0,
        });
    }
    let a = k * LINE_BYTES;
    let interval = hex_word(text, a);
    let current = hex_word(text, a + 17);
    let line = LoadLine {
        dt: words::from_bits(bits_of(interval)),
        current_a: words::from_bits(bits_of(current)),
    };
    let well_formed = interval.is_ok()
        & (text[a + 16] == b'\t')
        & current.is_ok()
        & (text[a + 33] == b'\n');
    if well_formed { Ok(line) } else { Err(line) }
}

// Whether no byte is left after k lines.
pub fn none_left(text: &[u8], k: usize) -> bool
    ensures { result ≡ none_left_of text.now k }
{
    text.len() <= k.saturating_mul(LINE_BYTES)
}
