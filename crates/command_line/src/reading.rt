// Reading a file into a text, and saying why one cannot be read.
ghost use Rattle.std.specs.Prelude.{◌≤◌, length, IfOk};

use arrayvec::ArrayString;
use setting_messages::{ERR, say};
use std::fmt::Write;
use std::fs::File;
use std::io::{Error, ErrorKind, Read, Result};
use std::rt::Files;

// Fills a text from a reader up to its end, and gives how much of it.
// A read gives as many bytes as it likes, so that no `for` counts them.
fn fill(reader: &mut impl Read, text: &mut [u8]) -> Result<usize>
    ensures { IfOk result (λ size. size ≤ length text.new) }
{
    let mut done: usize = 0;
    while done < text.len() {
        let n = reader.read(&mut text[done..])?;
        if n == 0 {
            break;
        }
        done += n;
    }
    Ok(done)
}

// Reads a file and gives its size, at most the room for it.
pub(crate) fn read(rt: &impl Files, path: &[u8], text: &mut [u8]) -> Result<usize>
    ensures { IfOk result (λ size. size ≤ length text.new) }
{
    let Ok(name) = std::str::from_utf8(path) else {
        return Err(Error::from(ErrorKind::InvalidFilename));
    };
    let mut file = File::open(rt, name)?;
    let size = fill(&mut file, text)?;
    // where the text is full, the next read may be the first that fails
    let mut more = [0u8; 1];
    file.read(&mut more)?;
    Ok(size)
}

// What an error's words say before the system's number.
fn without_number(words: &str) -> &str {
    match words.split_once(" (os error ") {
        Some((reason, _)) => reason,
        None => words,
    }
}

// Says which file cannot be read, and the system's reason.
pub(crate) fn say_fault(path: &[u8], error: Error) {
    let mut words = ArrayString::<256>::new();
    let _ = write!(words, "{error}");
    say(ERR, path);
    say(ERR, b": ");
    say(ERR, without_number(words.as_str()).as_bytes());
    say(ERR, b"\n");
}
