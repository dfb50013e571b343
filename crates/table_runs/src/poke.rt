// Bytes of the table: some of them, shown or written over whatever was there.
use runs::hexed::{Hexed, bytes_of};
use runs::number::number_at;
use runs::parts::{span, word};
use runs::{put, say};

pub fn show(rt: &impl Print, t: &[u8], l: &[u8], at: usize, n: usize) {
    let bytes = span(t, at, n);
    if bytes.len() == n {
        let _ = rt.println(Hexed(bytes));
    } else {
        say::bad(rt, l);
    }
}

// More bytes than there is room for are none.
pub fn poke(rt: &impl Print, t: &mut [u8], l: &[u8]) {
    let at = number_at(l, 1);
    let mut bytes = [0u8; 4096];
    let n = bytes_of(&mut bytes, word(l, 2)).unwrap_or(0);
    if span(t, at, n).len() == n {
        put(t, at, &bytes[..n]);
    } else {
        say::bad(rt, l);
    }
}
