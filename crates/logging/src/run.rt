// The log: the start, and then turn after turn to the end of the stream.
ghost use Rattle.std.specs.Prelude.{◌≤◌, ◌<◌, length, MatchOption};
ghost use Rattle.logging.specs.Turn.{LogBuffers};
ghost use Rattle.logging.specs.Begin.{Begun};
ghost use Rattle.logging.specs.Ran.{LogRan, Logged};

use crate::turn::turn;
use frames::answer::number_in;
use kernel::stewlattice_start;
use lines::line::put_start;
use reader::book::say_unsound;
use reader::out::put_out;
use reader::place::Place;

// A proved loop has to end, and nothing says that a stream does: turns are counted, up to a number that no run uses up.
const TURNS: u64 = 144115188075855872;

// The table is started from the book. Where that is refused, the line that says so lies at the front of the room, and its length
// is given.
fn begin(table: &mut [u8], book: &[u8], out: &mut [u8]) -> Option<usize>
    requires { 23 ≤ length out.old }
    ensures { MatchOption result
        (Begun table.old book.now out.old table.new out.new 0)
        (λ n. Begun table.old book.now out.old table.new out.new n × (0 < n)) }
{
    let number = number_in(stewlattice_start(table, book));
    let done = number == 0;
    if done {
        return None;
    }
    Some(put_start(out, 0, number))
}

fn run(
    rt: &(impl Input + Print + Eprint),
    buf: &mut [u8],
    table: &mut [u8],
    book: &[u8],
    out: &mut [u8],
    who: &[u8],
)
    requires { LogBuffers buf.old out.old }
    ensures { LogRan book.now buf.old table.old out.old buf.new table.new out.new }
{
    let mut p = Place::default();
    for _ in 0..TURNS {
        p = turn(rt, buf, table, book, out, p, who);
        if put_out(rt, &out[..p.filled], who).is_err() || p.done {
            break;
        }
    }
}

// The whole log, of a book and of standard input.
pub fn log(
    rt: &(impl Input + Print + Eprint),
    buf: &mut [u8],
    table: &mut [u8],
    book: &[u8],
    out: &mut [u8],
    who: &[u8],
)
    requires { LogBuffers buf.old out.old }
    ensures { Logged book.now buf.old table.old out.old buf.new table.new out.new }
{
    match begin(table, book, out) {
        None => run(rt, buf, table, book, out, who),
        Some(said) => {
            let _ = put_out(rt, &out[..said], who);
            say_unsound(rt, book, b"desklog: the start is refused");
        }
    }
}
