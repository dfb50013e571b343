// What standard error is told, in lines that begin with who tells it.
use std::fmt::Write as _;
use std::io::Write;
use std::{fmt, io};

// Bytes that are text, printed as they stand; where they are none, byte by byte.
#[derive(Clone, Copy)]
struct Text<'a>(&'a [u8]);

impl fmt::Display for Text<'_> {
    fn fmt<W: fmt::Write>(&self, f: &mut fmt::Formatter<W>) -> fmt::Result {
        if let Ok(text) = str::from_utf8(self.0) {
            return f.write_str(text);
        }
        for b in self.0 {
            f.write_char(char::from(*b))?;
        }
        Ok(())
    }
}

// A line.
pub fn say(rt: &impl Eprint, who: &[u8], what: &[u8]) {
    let _ = eprintln!(rt; "{}: {}", Text(who), Text(what));
}

// More than the system has words for any error.
const ROOM: usize = 128;

// What stands between an error's words and its number.
const NUMBER: &[u8] = b" (os error ";

// The words of what an error is printed as, in a room that has zeros behind it: without the number that may follow them.
fn words(printed: &[u8]) -> &[u8] {
    let text = printed.split(|b| *b == 0).next().unwrap_or_default();
    match (0..text.len()).find(|at| text[*at..].starts_with(NUMBER)) {
        Some(end) => &text[..end],
        None => text,
    }
}

// A line on a call of the system that has just failed: what failed, and the system's reason.
pub fn say_failed(rt: &impl Eprint, who: &[u8], what: &[u8], why: &io::Error) {
    let mut room = [0u8; ROOM];
    let _ = write!(&mut room[..], "{why}");
    let _ = eprintln!(rt; "{}: {}: {}", Text(who), Text(what), Text(words(&room)));
}
