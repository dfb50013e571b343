// The order book: its trailer, its soundness, and what it says of a seat.
ghost use Rattle.std.specs.Prelude.{◌≡◌, true, ◌≤◌, ◌<◌, length};
ghost use Rattle.terms.specs.Names.{orders as book_orders, sound_book, letting_of};
ghost use Rattle.terms.specs.Inner.{trailer_size, orders_at, orders_count, book_form, names_at, names_count};

use crate::{listed, orders};
use terms::num::num_at;
use terms::order::Letting;

// How many bytes the trailer has: the last ones of a book, which point back.
const TRAILER: usize = 8;

// Where the orders begin and how many there are, the book's form, where the listed names begin and how many there are.
#[derive(Clone, Copy)]
pub(crate) struct Trailer {
    pub(crate) orders_at: usize,
    pub(crate) orders: usize,
    pub(crate) form: u8,
    pub(crate) names_at: usize,
    pub(crate) names: usize,
}

impl Trailer {
    #[tactic(auto, using(terms::specs::Steps::Book::trailer_reads))]
    pub(crate) fn of(b: &[u8]) -> Trailer
        requires { trailer_size ≤ length b.now }
        ensures orders_at { result.orders_at ≡ orders_at b.now }
        ensures orders { result.orders ≡ orders_count b.now }
        ensures few { result.orders < 256 }
        ensures form { result.form ≡ book_form b.now }
        ensures names_at { result.names_at ≡ names_at b.now }
        ensures names { result.names ≡ names_count b.now }
    {
        let at = b.len() - TRAILER;
        Trailer {
            orders_at: num_at::<2>(b, at),
            orders: usize::from(b[at + 2]),
            form: b[at + 3],
            names_at: num_at::<2>(b, at + 4),
            names: num_at::<2>(b, at + 6),
        }
    }
}

#[tactic(auto, using(terms::specs::Steps::Book::sound_is, std::proofs::lemmas::Bool::Decides::nat_tests))]
pub fn is_sound(b: &[u8]) -> bool
    ensures { result ≡ sound_book b.now }
{
    if !(TRAILER..=32768).contains(&b.len()) {
        return false;
    }
    let t = Trailer::of(b);
    let until = b.len() - TRAILER;
    t.orders_at == 0
        && t.form == 0
        && t.names_at == orders::ORDER * t.orders
        && t.names_at <= until
        && orders::are_sound(b, t.orders)
        && listed::are_sound(b, t.names_at, t.names, until)
}

// What a sound book says of a seat.
#[tactic(auto, using(terms::specs::Laws::Book::book_size, terms::specs::Laws::Book::orders_fit, terms::specs::Steps::Book::orders_is))]
pub fn letting_of(b: &[u8], seat: u8) -> Option<Letting>
    requires { sound_book b.now ≡ true }
    ensures { result ≡ letting_of seat (book_orders b.now) }
{
    orders::letting_of(b, Trailer::of(b).orders, seat)
}
