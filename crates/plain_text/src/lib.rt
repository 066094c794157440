// Text as a slice of bytes: blanks, lines and pieces.
#![tactic(auto)]

ghost use Rattle.std.specs.Prelude.{◌≡◌, suc, ◌<◌, ◌≤◌, MatchOption, length, take, drop};
ghost use Rattle.plain_text.specs.Text.{is_blank, index_of, blanks_ahead, solid_end, trimmed, is_text, after_mark};

// A space, a tab, or the carriage return before a line's end: `trim_ascii` takes line feeds and form feeds too.
fn is_blank(b: u8) -> bool
    ensures { result ≡ is_blank b }
{
    matches!(b, b' ' | b'\t' | b'\r')
}

// What stands before the first b, and what stands after it.
pub fn split_once(s: &[u8], b: u8) -> Option<(&[u8], &[u8])>
    ensures { MatchOption result (index_of b s.now ≡ length s.now) (λ p. (index_of b s.now < length s.now) × (p.0.now ≡ take (index_of b s.now) s.now) × (p.1.now ≡ drop (suc (index_of b s.now)) s.now)) }
{
    let at = s.iter().position(|x| *x == b)?;
    Some((&s[..at], &s[at + 1..]))
}

// How many blanks a text begins with.
fn blanks_ahead(s: &[u8]) -> usize
    ensures { result ≡ blanks_ahead s.now }
{
    s.iter().position(|b| !is_blank(*b)).unwrap_or(s.len())
}

// The end of the last byte that is no blank.
fn solid_end(s: &[u8]) -> usize
    ensures { (result ≡ solid_end (length s.now) s.now) × (result ≤ length s.now) }
{
    let mut end = 0;
    for (i, b) in s.iter().enumerate() {
        if !is_blank(*b) {
            end = i + 1;
        }
    }
    end
}

// A text without the blanks around it.
pub fn without_blanks(s: &[u8]) -> &[u8]
    ensures { result.now ≡ trimmed s.now }
{
    let end = solid_end(s);
    &s[blanks_ahead(s).min(end)..end]
}

// Whether a text is p: `==`, by the word that contracts have for it.
#[tactic(auto, using(crate::specs::Pieces::same))]
pub fn is(s: &[u8], p: &[u8]) -> bool
    ensures { result ≡ is_text s.now p.now }
{
    s == p
}

// A text without the byte order mark that it may begin with.
pub fn after_mark(s: &[u8]) -> &[u8]
    ensures { result.now ≡ after_mark s.now }
{
    s.strip_prefix(b"\xef\xbb\xbf").unwrap_or(s)
}
