// A list, read word by word. A line takes the words that it lists whether they agree or not: the next line begins after them.
use refusal::Refusal;

// A word and the byte after it: a space, a tab before the answer, the line's end; 0 where the list is over.
// No Option: each reader would have to answer for a word that is not there.
#[derive(Clone, Copy)]
pub(crate) struct Word {
    pub value: u64,
    pub end: u8,
}

// What of a list's bytes is not read yet, from a word of a line on.
#[derive(Drop)]
pub(crate) struct Line<'a> {
    pub rest: &'a [u8],
}

fn digit(b: u8) -> u64 {
    u64::from(b).wrapping_sub(if b <= b'9' { 48 } else { 55 })
}

fn value_of(digits: &[u8]) -> u64 {
    let mut value = 0;
    for b in digits {
        value = value << 4 | digit(*b);
    }
    value
}

// By bits, here and in each `same_..`: `==` finds no NaN like itself, and -0 like 0.
pub(crate) fn same(a: f64, b: f64) -> bool {
    words::to_bits(a) == words::to_bits(b)
}

// Whether two arrays are alike, by their bits.
pub(crate) fn same_arrays(a: &[f64], b: &[f64]) -> bool {
    a.len() == b.len() && a.iter().zip(b).all(|(x, y)| same(*x, *y))
}

// Whether numbers are those of the words of an answer.
pub(crate) fn are_listed(x: &[f64], listed: &[u64]) -> bool {
    x.len() == listed.len()
        && x.iter()
            .zip(listed)
            .all(|(x, word)| words::to_bits(*x) == *word)
}

// Whether an array is the one that an answer lists, which is none where it has more places than there are.
pub(crate) fn is_array<const N: usize>(c: &[f64; N], listed: Option<[u64; N]>) -> bool {
    listed.is_some_and(|words| are_listed(c, &words))
}

// Whether a call's answer is the listed one: a refusal by its number, a value where `same` finds it like the listed one.
pub(crate) fn same_answer<T: Copy, L: Copy, F: FnOnce(T, L) -> bool>(
    a: Result<T, Refusal>,
    listed: Result<L, u64>,
    same: F,
) -> bool
    requires { F.IsAlwaysCallable same }
{
    match (a, listed) {
        (Ok(x), Ok(y)) => same(x, y),
        (Err(e), Err(number)) => e.number() == number,
        _ => false,
    }
}

impl Line<'_> {
    // Whether no line follows: no word is left, or the byte after the next is 0.
    pub fn is_over(&self) -> bool {
        self.rest.get(16).is_none_or(|end| *end == 0)
    }

    pub fn next_word(&mut self) -> Word {
        match self.rest.split_first_chunk::<17>() {
            None => Word { value: 0, end: 0 },
            Some((text, rest)) => {
                self.rest = rest;
                Word {
                    value: value_of(&text[..16]),
                    end: text[16],
                }
            }
        }
    }

    // Passes over as many words, or all that are left.
    fn skip(&mut self, count: usize) {
        self.rest = self.rest.get(count.saturating_mul(17)..).unwrap_or(&[]);
    }

    pub fn next_u64(&mut self) -> u64 {
        self.next_word().value
    }

    pub fn next_usize(&mut self) -> usize {
        self.next_u64() as usize
    }

    pub fn next_f64(&mut self) -> f64 {
        words::from_bits(self.next_u64())
    }

    pub fn next_u64s<const N: usize>(&mut self) -> [u64; N] {
        let mut x = [0; N];
        for place in x.iter_mut() {
            *place = self.next_u64();
        }
        x
    }

    pub fn next_f64s<const N: usize>(&mut self) -> [f64; N] {
        let mut x = [0.0; N];
        for place in x.iter_mut() {
            *place = self.next_f64();
        }
        x
    }

    // The next array: how many places are listed, then these; the others are +0.
    pub fn next_places<const N: usize>(&mut self) -> [f64; N] {
        let listed = self.next_usize();
        let mut c = [0.0; N];
        for place in c.iter_mut().take(listed) {
            *place = self.next_f64();
        }
        c
    }

    // The words of the next array of an answer; none where more are listed than there are places.
    pub fn next_array<const N: usize>(&mut self) -> Option<[u64; N]> {
        let listed = self.next_usize();
        let mut c = [0; N];
        for place in c.iter_mut().take(listed) {
            *place = self.next_u64();
        }
        (listed <= N).then_some(c)
    }

    // Reads a slice, its length and then its places, into the room that there is, and gives the places that are kept.
    pub fn read_slice<'r>(&mut self, room: &'r mut [f64]) -> &'r mut [f64] {
        let listed = self.next_usize();
        let kept = listed.min(room.len());
        let (slice, _) = room.split_at_mut(kept);
        for place in slice.iter_mut() {
            *place = self.next_f64();
        }
        self.skip(listed - kept);
        slice
    }

    pub fn is_u64(&mut self, x: u64) -> bool {
        self.next_u64() == x
    }

    // Whether the next word is x and the line's last.
    pub fn is_last(&mut self, x: u64) -> bool {
        let w = self.next_word();
        w.value == x && w.end == b'\n'
    }

    pub fn is_f64(&mut self, x: f64) -> bool {
        self.is_u64(words::to_bits(x))
    }

    pub fn is_f64s(&mut self, x: &[f64]) -> bool {
        x.iter().fold(true, |agrees, x| agrees & self.is_f64(*x))
    }

    // Whether the next array is c, by its bits.
    pub fn is_places(&mut self, c: &[f64]) -> bool {
        let listed = self.next_usize();
        let kept = listed.min(c.len());
        (listed == kept)
            & self.is_f64s(&c[..kept])
            & c[kept..].iter().all(|x| words::to_bits(*x) == 0)
    }

    // The next answer: a refusal's number, or 0 and a value, which `next` reads.
    pub fn next_answer<L, F: FnOnce(&mut Line<'_>) -> L>(&mut self, next: F) -> Result<L, u64>
        requires { F.IsAlwaysCallable next }
    {
        match self.next_u64() {
            0 => Ok(next(self)),
            number => Err(number),
        }
    }

    // Whether the next answer, whose value is a number, is a.
    pub fn is_answer(&mut self, a: Result<f64, Refusal>) -> bool {
        let listed = self.next_answer(|line| line.next_u64());
        same_answer(a, listed, |x, word| words::to_bits(x) == word)
    }
}
