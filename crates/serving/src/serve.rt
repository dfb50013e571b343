// Events of the buffered stream, given to the kernel one after another. The reader's position is lent on from frame to frame
// and moved past each.
ghost use Rattle.std.specs.Prelude.{◌+◌, ◌*◌, ◌≤◌, ◌<◌, length};
ghost use Rattle.logs.specs.Inner.{most_text, Room, One, Many};

use kernel::stewlattice_step;
use lines::line::put_lines;
use logs::cursor::Cursor;
use logs::frame::first_bytes;

// The position after some events, and how much of the room their text has filled.
#[derive(Clone, Copy)]
pub struct Served {
    pub cursor: Cursor,
    pub filled: usize,
}

// The event at the cursor, which is moved past it; how much of the room is filled then is given.
fn next(
    stream: &[u8],
    table: &mut [u8],
    book: &[u8],
    out: &mut [u8],
    c: &mut Cursor,
    filled: usize,
) -> usize
    requires { Room stream.now out.old c.old filled }
    ensures { One stream.now table.old book.now out.old c.old filled table.new out.new c.new result }
{
    let Cursor { place, number } = *c;
    let end = place + first_bytes(&stream[place..]);
    let mut room = [0u8; 4106];
    let answer = stewlattice_step(table, book, &stream[place..end], &mut room);
    *c = Cursor {
        place: end,
        number: number + 1,
    };
    put_lines(out, filled, number + 1, answer, &room)
}

// So many events from the front of the stream, their text over the front of the room.
pub fn serve(
    stream: &[u8],
    table: &mut [u8],
    book: &[u8],
    out: &mut [u8],
    number: u64,
    count: u64,
) -> Served
    requires { (number + count < 18446744073709551616) × (most_text * count ≤ length out.old) }
    ensures { Many stream.now table.old book.now out.old number count table.new out.new result.cursor result.filled }
{
    let mut cursor = Cursor { place: 0, number };
    let mut filled = 0;
    for _ in 0..count {
        filled = next(stream, table, book, out, &mut cursor, filled);
    }
    Served { cursor, filled }
}
