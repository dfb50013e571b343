// Where a program stands in the stream that it reads, and the read that brings more of it.
ghost use Rattle.std.specs.Prelude.{◌≡◌, length};
ghost use Rattle.reader.specs.Held.{Sound, held, Filled};

use crate::buffer::{fill, shift};

// The unread bytes of the buffer are those from place up to have. A program gives them on piece by piece, from the front.
#[derive(Clone, Copy, Default)]
pub struct Place {
    pub place: usize,
    pub have: usize,
    // how many pieces were given
    pub number: u64,
    // how much text of this turn lies at the front of the room
    pub filled: usize,
    // the end of the stream was seen
    pub ended: bool,
    // the last piece was given
    pub done: bool,
}

impl Place {
    // What is unread.
    #[tactic(auto, unfolding(crate::specs::Held::held))]
    pub fn held<'b>(self, buf: &'b [u8]) -> &'b [u8]
        requires { Sound self (length buf.now) }
        ensures { result.now ≡ held buf.now self }
    {
        &buf[self.place..self.have]
    }
}

// Reads once behind what is unread. A read that fails counts as the end of the stream, and is told.
pub fn refill(rt: &(impl Input + Eprint), buf: &mut [u8], p: Place, who: &[u8]) -> Place
    requires { Sound p (length buf.old) }
    ensures { Filled buf.old p buf.new result }
{
    let unread = p.have - p.place;
    shift(buf, p.place, p.have);
    let got = fill(rt, buf, unread, who);
    Place {
        place: 0,
        have: unread + got,
        filled: 0,
        ended: got == 0,
        done: false,
        ..p
    }
}
