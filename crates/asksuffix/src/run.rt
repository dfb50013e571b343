// Turn after turn, to the end of the stream.
ghost use Rattle.asksuffix.specs.Turn.{AskBuffers};
ghost use Rattle.asksuffix.specs.Turns.{AskRan};

use crate::cut::say_cut;
use crate::turn::turn;
use reader::out::put_out;
use reader::place::Place;

// A proved loop has to end, and nothing says that a stream does: turns are counted, up to a number that no run uses up.
const TURNS: u64 = 18446744073709551615;

pub fn run(
    rt: &(impl Input + Print + Eprint),
    buf: &mut [u8],
    book: &[u8],
    out: &mut [u8],
    who: &[u8],
)
    requires { AskBuffers buf.old out.old }
    ensures { AskRan book.now buf.old out.old buf.new out.new }
{
    let mut p = Place::default();
    for _ in 0..TURNS {
        p = turn(rt, buf, book, out, p, who);
        if put_out(rt, &out[..p.filled], who).is_err() {
            return;
        }
        if p.done {
            say_cut(rt, p.held(buf), p.number);
            return;
        }
    }
}
