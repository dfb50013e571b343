// The order book: book.bin in the working directory. What is said of it goes to standard error, and begins as the caller asks.
ghost use Rattle.reader.specs.Front.{IsPrefixLen};

use crate::front::read_all;
use crate::say::{say, say_failed};
use std::fs;
use std::rt::Files;

// How many bytes of the book are at the front of the room. A book that cannot be opened or read is told, and counts as empty.
pub fn read_book(rt: &(impl Files + Eprint), to: &mut [u8], who: &[u8]) -> usize
    ensures { IsPrefixLen result to.new }
{
    let opened = fs::open(rt, "book.bin").inspect_err(|why| say_failed(
        rt,
        who,
        b"book.bin cannot be opened",
        why,
    ));
    let Ok(mut book) = opened else {
        return 0;
    };
    read_all(&mut book, to)
        .inspect_err(|broken| say_failed(rt, who, b"book.bin cannot be read", &broken.why))
        .unwrap_or(0)
}

// Why this book is unsound, in words.
pub fn say_unsound(rt: &impl Eprint, book: &[u8], who: &[u8]) {
    let what: &[u8] = match book.len() {
        0 => b"an empty order book is unsound",
        1..=32768 => b"book.bin is not a sound order book",
        _ => b"book.bin has more than 32,768 bytes",
    };
    say(rt, who, what);
}
