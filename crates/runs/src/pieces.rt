// Bytes as a script writes them, in words.
ghost use Rattle.std.specs.Prelude.{◌≡◌, ◌+◌, ◌<◌, ◌≤◌, min, length, IfSome, IsSome};
ghost use Rattle.std.proofs.lemmas.List.Edits.{sets};
ghost use Rattle.runs.specs.Decimal.{decimal};
ghost use Rattle.runs.specs.Pieces.{bytes_of, Says};

use crate::number::number_of;
use crate::parts::part;
use crate::put;

// What a word stands for.
#[derive(Clone, Copy)]
pub enum Piece<'w> {
    // "text", its bytes
    Text(&'w [u8]),
    // 25, a byte
    Byte(u8),
    // 2:80, a number in two bytes
    Two(u16),
    // 4:65537, one in four
    Four(u32),
    // 20*a, the letter 20 times
    Repeated { times: usize, letter: u8 },
}

impl<'w> Piece<'w> {
    // A word that stands for no byte is no piece.
    pub fn of(w: &'w [u8]) -> Option<Piece<'w>>
        ensures said { IfSome result (Says w.now) }
        ensures number { IsSome (decimal w.now) → IsSome result }
        ensures some { IfSome result (λ piece. 0 < length (bytes_of piece)) }
    {
        if let Some(n) = number_of(w) {
            return Some(Piece::Byte((n % 256) as u8));
        }
        if let [b'"', text @ .., b'"'] = w {
            return (!text.is_empty()).then_some(Piece::Text(text));
        }
        if let [letter] = part(w, b'*', 1) {
            let times = number_of(part(w, b'*', 0))?;
            return (times != 0).then_some(Piece::Repeated {
                times,
                letter: *letter,
            });
        }
        let n = number_of(part(w, b':', 1))?;
        match number_of(part(w, b':', 0))? {
            2 => Some(Piece::Two((n % 65536) as u16)),
            4 => Some(Piece::Four((n % 4294967296) as u32)),
            _ => None,
        }
    }

    // How many bytes it has.
    fn len(&self) -> usize
        ensures { result ≡ length (bytes_of self.now) }
    {
        match self {
            Piece::Text(text) => text.len(),
            Piece::Byte(_) => 1,
            Piece::Two(_) => 2,
            Piece::Four(_) => 4,
            Piece::Repeated { times, .. } => *times,
        }
    }

    // Writes them from a place on, as many as there is room for, and gives the place after them.
    fn put(&self, to: &mut [u8], at: usize) -> usize
        requires { at ≤ length to.old }
        ensures written { to.new ≡ sets to.old at (bytes_of self.now) }
        ensures end { result ≡ min (at + length (bytes_of self.now)) (length to.old) }
    {
        let n = self.len().min(to.len() - at);
        match self {
            Piece::Text(text) => put(to, at, text),
            Piece::Byte(x) => put(to, at, &[*x]),
            Piece::Two(x) => put(to, at, &x.to_be_bytes()),
            Piece::Four(x) => put(to, at, &x.to_be_bytes()),
            Piece::Repeated { letter, .. } => to[at..at + n].fill(*letter),
        }
        at + n
    }
}

// Writes the bytes of a line's words from word k on, and gives the place after them.
pub fn put_words(to: &mut [u8], at: usize, l: &[u8], k: usize) -> usize
    requires { at ≤ length to.old }
    ensures { (at ≤ result) × (result ≤ length to.new) }
{
    let mut end = at;
    for w in l.split(|b| *b == b' ').skip(k) {
        if let Some(piece) = Piece::of(w) {
            end = piece.put(to, end);
        }
    }
    end
}
