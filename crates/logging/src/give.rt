// The events that are ready in what is held of the stream, given to the kernel.
ghost use Rattle.std.specs.Prelude.{◌+◌, ◌*◌, ◌≤◌, ◌<◌, length};
ghost use Rattle.logging.specs.Turn.{most_events, Gave};
ghost use Rattle.logs.specs.Inner.{most_text};

use logs::frame::{Ready, count_ready};
use serving::serve::{Served, serve};

// At most so many events are given in a turn: their text fits the room, whatever they are.
const MOST: u64 = 60;

#[derive(Clone, Copy)]
pub struct Batch {
    pub ready: Ready,
    pub served: Served,
}

pub fn give_ready(
    held: &[u8],
    table: &mut [u8],
    book: &[u8],
    out: &mut [u8],
    number: u64,
    ended: bool,
) -> Batch
    requires { (number + most_events < 18446744073709551616) × (most_text * most_events ≤ length out.old) }
    ensures { Gave held.now table.old book.now out.old number ended table.new out.new result }
{
    let ready = count_ready(held, ended, MOST);
    let served = serve(held, table, book, out, number, ready.count);
    Batch { ready, served }
}
