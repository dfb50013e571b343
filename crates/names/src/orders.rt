// Orders in a book: one of them, which are sound, and what they say of a seat.
ghost use Rattle.std.specs.Prelude.{◌≡◌, ◌+◌, ◌*◌, ◌≤◌, ◌<◌, length};
ghost use Rattle.terms.specs.Names.{letting_of};
ghost use Rattle.terms.specs.Inner.{order_size, is_order, order_at, orders_from, sound_orders};

use terms::order::{Letting, Order, are_legal_options};

// How many bytes an order has.
pub(crate) const ORDER: usize = 3;

#[tactic(auto, using(terms::specs::Steps::Order::order_is, std::proofs::lemmas::Bool::Decides::nat_tests))]
fn is_order(o: Order) -> bool
    ensures { result ≡ is_order o }
{
    (1..=8).contains(&o.seat) && (1..=99).contains(&o.tenant) && are_legal_options(o.options)
}

#[tactic(auto, using(terms::specs::Steps::Order::order_at_is))]
fn order_at(b: &[u8], at: usize) -> Order
    requires { at + 2 < length b.now }
    ensures { result ≡ order_at b.now at }
{
    Order {
        seat: b[at],
        tenant: b[at + 1],
        options: b[at + 2],
    }
}

// The first orders of a book, as many as it counts, are sound.
#[tactic(auto, using(terms::specs::Steps::Order::chained, std::proofs::lemmas::Bool::Decides::nat_tests))]
pub(crate) fn are_sound(b: &[u8], count: usize) -> bool
    requires { order_size * count ≤ length b.now }
    ensures { result ≡ sound_orders (orders_from b.now 0 count) }
{
    let mut last = 0;
    for i in 0..count {
        let o = order_at(b, ORDER * i);
        if !is_order(o) || o.seat <= last {
            return false;
        }
        last = o.seat;
    }
    true
}

#[tactic(auto, using(terms::specs::Steps::Order::saying, std::proofs::lemmas::Bool::Decides::nat_tests))]
pub(crate) fn letting_of(b: &[u8], count: usize, seat: u8) -> Option<Letting>
    requires { order_size * count ≤ length b.now }
    ensures { result ≡ letting_of seat (orders_from b.now 0 count) }
{
    for i in 0..count {
        let o = order_at(b, ORDER * i);
        if o.seat == seat {
            return Some(Letting {
                tenant: o.tenant,
                options: o.options,
            });
        }
    }
    None
}
