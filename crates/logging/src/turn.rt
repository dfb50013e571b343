// A turn of the reader: what is ready is given to the kernel, or, where nothing is, the buffer is filled up.
ghost use Rattle.std.specs.Prelude.{◌≡◌, ◌+◌, ◌<◌, length};
ghost use Rattle.reader.specs.Held.{Sound};
ghost use Rattle.logging.specs.Turn.{Ample, past, Turn};

use crate::give::{Batch, give_ready};
use reader::place::{Place, refill};

// The place past the events that were given.
fn moved(p: Place, given: Batch) -> Place
    requires { p.place + given.served.cursor.place < 18446744073709551616 }
    ensures { result ≡ past p given }
{
    let cursor = given.served.cursor;
    Place {
        place: p.place + cursor.place,
        number: cursor.number,
        filled: given.served.filled,
        done: given.ready.last,
        ..p
    }
}

pub fn turn(
    rt: &(impl Input + Eprint),
    buf: &mut [u8],
    table: &mut [u8],
    book: &[u8],
    out: &mut [u8],
    p: Place,
    who: &[u8],
) -> Place
    requires { Sound p (length buf.old) × Ample p buf.old out.old }
    ensures { Turn buf.old table.old book.now out.old p buf.new table.new out.new result }
{
    let given = give_ready(p.held(buf), table, book, out, p.number, p.ended);
    if given.ready.count == 0 && !given.ready.last {
        return refill(rt, buf, p, who);
    }
    moved(p, given)
}
