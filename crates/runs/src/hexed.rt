// Bytes as lower-case hex, read and written.
ghost use Rattle.std.specs.Prelude.{◌≡◌, ◌<◌, ◌/◌, length, IfSome};
ghost use Rattle.reader.specs.Front.{IsPrefixLen};

use std::fmt;

// What a digit stands for.
fn value_of(digit: u8) -> Option<u8>
    ensures { IfSome result (λ v. v < 16) }
{
    match digit {
        b'0'..=b'9' => Some(digit - b'0'),
        b'a'..=b'f' => Some(digit - b'a' + 10),
        _ => None,
    }
}

// Pairs of digits: at least one, and nothing else.
pub fn is_hex(w: &[u8]) -> bool {
    w.len() % 2 == 0 && !w.is_empty() && w.iter().all(|digit| value_of(*digit).is_some())
}

// A digit that is none stands for 16.
fn byte_of(high: u8, low: u8) -> u8 {
    let value = |digit| u16::from(value_of(digit).unwrap_or(16));
    ((16 * value(high) + value(low)) % 256) as u8
}

// How many bytes a word has put at the start of `to`, if it has room there.
pub fn bytes_of(to: &mut [u8], w: &[u8]) -> Option<usize>
    ensures { IfSome result (λ n. (n ≡ length w.now / 2) × IsPrefixLen n to.new) }
{
    let n = w.len() / 2;
    if to.len() < n {
        return None;
    }
    for (x, pair) in to.iter_mut().zip(w.chunks_exact(2)) {
        *x = byte_of(pair[0], pair[1]);
    }
    Some(n)
}

// Bytes, each printed as two digits.
#[derive(Clone, Copy)]
pub struct Hexed<'s>(pub &'s [u8]);

impl fmt::Display for Hexed<'_> {
    fn fmt<W: fmt::Write>(&self, f: &mut fmt::Formatter<W>) -> fmt::Result {
        for b in self.0 {
            write!(f, "{b:02x}")?;
        }
        Ok(())
    }
}
