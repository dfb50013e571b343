// Commands by their shapes: a word, and a kind for each word after it.
ghost use Rattle.std.specs.Prelude.{◌≡◌, ℕ, ◌<◌, IsTrue, IfSome, length};
ghost use Rattle.std.specs.List.{HoldsAt};
ghost use Rattle.runs.specs.Words.{word};

use crate::hexed::is_hex;
use crate::number::number_of;
use crate::parts::word;
use crate::pieces::Piece;

// What a word of a line has to be.
#[derive(Clone, Copy)]
pub enum Kind {
    // a decimal number
    Number,
    // bytes in hex
    Hex,
    // what a tab may wait for
    Mark,
    // any word
    Word,
    // bytes in pieces, to the end of the line
    Pieces,
}

// A command's first word, the kinds of those after it, and the command.
pub type Shape<C> = (&'static str, &'static [Kind], C);

impl Kind {
    fn fits(self, w: &[u8]) -> bool {
        match self {
            Kind::Number => number_of(w).is_some(),
            Kind::Hex => is_hex(w),
            Kind::Mark => matches!(w, b"cookie" | b"document"),
            Kind::Word => !w.is_empty(),
            Kind::Pieces => Piece::of(w).is_some(),
        }
    }
}

// The words after a line's first are of these kinds.
fn are_fit(l: &[u8], kinds: &[Kind]) -> bool {
    let mut words = l.split(|b| *b == b' ').skip(1);
    for kind in kinds {
        if let Kind::Pieces = kind {
            return words.all(|w| kind.fits(w));
        }
        if !words.next().is_some_and(|w| kind.fits(w)) {
            return false;
        }
    }
    words.next().is_none()
}

// The line has this first word, and after it words of these kinds.
fn is(l: &[u8], first: &str, kinds: &[Kind]) -> bool
    ensures { IsTrue result → word l.now 0 ≡ first.now }
{
    word(l, 0) == first.as_bytes() && are_fit(l, kinds)
}

// The command that a line is, of those that have these shapes.
pub fn command_of<C: Copy>(l: &[u8], shapes: &[Shape<C>]) -> Option<C>
    ensures { IfSome result (λ command. (k : ℕ) × (k < length shapes.now)
        × HoldsAt (λ s. (s.0.now ≡ word l.now 0) × (s.2 ≡ command)) shapes.now k) }
{
    let (_, _, command) = shapes.iter().find(|(first, kinds, _)| is(l, first, kinds))?;
    Some(*command)
}
