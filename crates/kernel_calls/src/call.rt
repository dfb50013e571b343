// One call of the kernel, with a look at the memory that it was lent.
ghost use Rattle.std.specs.Prelude.{◌≡◌, ◌≤◌, ◌==◌, ◌&&◌, ◌||◌};
ghost use Rattle.rules.specs.Sheet.{number_in};

use crate::frame::Event;
use crate::shape::Call;
use frames::answer::{bytes_in, number_in};
use runs::changes::count;

// What the room holds before a call.
const FILL: u8 = 165;

// How much of the memory is lent to a call.
#[derive(Clone, Copy)]
pub struct Lent {
    pub table: usize,
    pub book: usize,
    pub room: usize,
}

// The memory: a byte more than a table has, a book, and some more than an output room needs.
#[derive(Drop)]
pub struct Memory {
    pub table: [u8; 6153],
    pub book: [u8; 4096],
    pub room: [u8; 4200],
    pub lent: Lent,
}

// What came of a call: its answer, how many bytes of the table it changed, and whether the room past the bytes written
// stayed.
#[derive(Clone, Copy)]
pub struct Outcome {
    pub answer: u64,
    pub changed: usize,
    pub stayed: bool,
}

impl Outcome {
    pub fn is_served(&self) -> bool
        ensures { result ≡ (number_in self.now.answer == 0) }
    {
        number_in(self.answer) == 0
    }

    // No byte changed that must stay.
    pub fn is_kept(&self) -> bool
        ensures { result ≡ self.now.stayed
            && (number_in self.now.answer == 0 || self.now.changed == 0) }
    {
        self.stayed && (self.is_served() || self.changed == 0)
    }
}

// The kernel's call, with just what is lent.
fn ask(table: &mut [u8], book: &[u8], room: &mut [u8], lent: Lent, l: &[u8], call: Call) -> u64 {
    let t = lent.table.min(table.len());
    let b = lent.book.min(book.len());
    let r = lent.room.min(room.len());
    match call {
        Call::Start => kernel::stewlattice_start(&mut table[..t], &book[..b]),
        Call::Step(event) => {
            let mut bytes = [0u8; 8192];
            let n = event.put(&mut bytes, l);
            kernel::stewlattice_step(&mut table[..t], &book[..b], &bytes[..n], &mut room[..r])
        }
    }
}

impl Memory {
    pub fn new() -> Memory
        ensures { (result.lent.table ≡ 6152) × (result.lent.book ≡ 0) × (result.lent.room ≡ 4106) }
    {
        Memory {
            table: [0; 6153],
            book: [0; 4096],
            room: [0; 4200],
            lent: Lent {
                table: 6152,
                book: 0,
                room: 4106,
            },
        }
    }

    // The room from a place on is as it was filled.
    fn is_filled(&self, from: usize) -> bool {
        self.room.iter().skip(from).all(|x| *x == FILL)
    }

    // The call that a line asks for.
    pub fn call(&mut self, l: &[u8], call: Call) -> Outcome
        ensures lent { self.new.lent ≡ self.old.lent }
        ensures book { self.new.book ≡ self.old.book }
    {
        let old = self.table;
        self.room = [FILL; 4200];
        let lent = self.lent;
        let Memory {
            table,
            book,
            room,
            ..
        } = self;
        let answer = ask(table, book, room, lent, l, call);
        Outcome {
            answer,
            changed: count(&old, &self.table),
            stayed: self.is_filled(bytes_in(answer)),
        }
    }

    // The event is served, and writes nowhere else.
    fn serves(&mut self, l: &[u8], event: Event) -> bool {
        let o = self.call(l, Call::Step(event));
        o.is_served() && o.stayed
    }

    // Two events in turn, and whether both were well served.
    fn round(&mut self, l: &[u8]) -> bool {
        let opened = self.serves(l, Event::Opening);
        let closed = self.serves(l, Event::Closing);
        opened && closed
    }

    // So many rounds; how many of them were not well served.
    pub fn rounds(&mut self, l: &[u8], n: usize) -> usize
        ensures { result ≤ n }
    {
        (0..n).filter(|_| !self.round(l)).count()
    }
}
