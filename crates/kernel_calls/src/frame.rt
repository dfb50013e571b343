// Events as a script writes them: a whole frame, with the size that its payload has; or bytes as they are.
ghost use Rattle.std.specs.Prelude.{◌≤◌, length};

use runs::number::number_at;
use runs::pieces::put_words;
use terms::num::put_num;

// What a line says of an event.
#[derive(Clone, Copy)]
pub enum Event {
    // its bytes as they are
    Raw,
    // its party, id, tag and payload
    Framed,
    // in a round, the seat that opens a suffix
    Opening,
    // and that then closes the tab, with key 25
    Closing,
}

// Writes a frame whose payload is a line's words from word k on, and gives its length.
fn put_frame(to: &mut [u8], party: usize, id: usize, tag: usize, l: &[u8], k: usize) -> usize
    requires { 10 ≤ length to.old }
    ensures { result ≤ length to.new }
{
    let end = put_words(to, 10, l, k);
    let size = end - 10;
    to[0] = (party % 256) as u8;
    put_num::<4>(to, 1, id % 4294967296);
    to[5] = (tag % 256) as u8;
    put_num::<4>(to, 6, size % 4294967296);
    end
}

impl Event {
    // Writes the event that a line is, and gives its length.
    pub fn put(self, to: &mut [u8], l: &[u8]) -> usize
        requires { 10 ≤ length to.old }
        ensures { result ≤ length to.new }
    {
        let id = number_at(l, 2);
        match self {
            Event::Raw => put_words(to, 0, l, 1),
            Event::Framed => put_frame(to, number_at(l, 1), id, number_at(l, 3), l, 4),
            Event::Opening => put_frame(to, 1, id, 3, l, 3),
            Event::Closing => put_frame(to, 1, id, 1, b"25", 0),
        }
    }
}
