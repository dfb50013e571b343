// A turn of the program: a host that is all there is answered, or the buffer is filled up.
ghost use Rattle.std.specs.Prelude.{true, ◌≡◌, ◌+◌, length};
ghost use Rattle.reader.specs.Held.{Sound};
ghost use Rattle.asksuffix.specs.Turn.{AskBuffers, Countable, last, Answerable, Gave, Turn};

use crate::answer::put_answer;
use crate::host::{host_bytes, is_whole};
use reader::place::{Place, refill};

// The host at the front of what is held, answered; the place is past it.
fn answer(held: &[u8], book: &[u8], out: &mut [u8], p: Place) -> Place
    requires { Answerable held.now out.old p }
    ensures { Gave held.now book.now out.old p out.new result }
{
    let size = host_bytes(held);
    let filled = put_answer(out, &held[2..size], book);
    Place {
        place: p.place + size,
        number: p.number + 1,
        filled,
        done: false,
        ..p
    }
}

// Nothing more comes, and what is held is no host.
#[tactic(auto, unfolding(crate::specs::Turn::last))]
fn stop(p: Place) -> Place
    ensures { result ≡ last p }
{
    Place {
        filled: 0,
        done: true,
        ..p
    }
}

pub fn turn(
    rt: &(impl Input + Eprint),
    buf: &mut [u8],
    book: &[u8],
    out: &mut [u8],
    p: Place,
    who: &[u8],
) -> Place
    requires { Sound p (length buf.old) × (AskBuffers buf.old out.old × Countable p) }
    ensures { Turn buf.old book.now out.old p buf.new out.new result }
{
    let held = p.held(buf);
    if is_whole(held) {
        return answer(held, book, out, p);
    }
    if p.ended {
        return stop(p);
    }
    refill(rt, buf, p, who)
}
