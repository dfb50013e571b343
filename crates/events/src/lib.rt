// The bytes of an event, read as what stands for it in memory.
#![tactic(auto)]

ghost use Rattle.std.specs.Prelude.{◌≡◌, ◌&&◌, ◌+◌, ◌≤◌, length, eqb, leb};
ghost use Rattle.rules.specs.Sheet.{reading_of};
ghost use Rattle.rules.specs.Inner.{sized, from_seat, from_tab, sent_by, delivered, rest};

use rules::event::{Delivery, Event, Part, SeatMessage, TabMessage};
use terms::num::num_at;

const HEAD: usize = 10;

const PAYLOAD: usize = 4096;

// The bytes are as many as a frame says that it has.
#[tactic(auto, using(rules::proofs::Steps::Read::sized_is, std::proofs::lemmas::Bool::Decides::nat_tests))]
fn is_sized(e: &[u8]) -> bool
    ensures { result ≡ sized e.now }
{
    HEAD <= e.len() && num_at::<4>(e, 6) <= PAYLOAD && num_at::<4>(e, 6) == e.len() - HEAD
}

// The payload from its byte j on.
#[tactic(auto, using(rules::proofs::Steps::Read::rest_is))]
fn rest_of(e: &[u8], j: usize) -> Part
    requires { 10 + j ≤ length e.now }
    ensures { result ≡ rest e.now j }
{
    let at = HEAD + j;
    let len = e.len() - at;
    Part { at, len }
}

#[tactic(auto, using(rules::proofs::Steps::Read::seat_is, std::proofs::lemmas::Bool::Decides::nat_tests))]
fn seat_event(e: &[u8], n: usize, id: usize, tag: u8) -> Option<Event>
    requires { 10 + n ≡ length e.now }
    ensures { result ≡ from_seat e.now n id tag }
{
    match tag {
        1 if n == 1 => Some(Event::Seat {
            id,
            message: SeatMessage::Key(e[HEAD]),
        }),
        2 if n == 4 => Some(Event::Seat {
            id,
            message: SeatMessage::Mouse(rest_of(e, 0)),
        }),
        3 => Some(Event::Seat {
            id,
            message: SeatMessage::Open(rest_of(e, 0)),
        }),
        _ => None,
    }
}

#[tactic(auto, using(rules::proofs::Steps::Read::socket_is, std::proofs::lemmas::Bool::Decides::nat_tests))]
fn socket_event(e: &[u8], n: usize, id: usize) -> Option<Event>
    requires { 10 + n ≡ length e.now }
    ensures { result ≡ from_tab e.now n id 2 }
{
    if n < 2 {
        return None;
    }
    let port = num_at::<2>(e, HEAD);
    let host = rest_of(e, 2);
    Some(Event::Tab {
        id,
        message: TabMessage::Socket { port, host },
    })
}

#[tactic(auto, using(rules::proofs::Steps::Read::store_is, std::proofs::lemmas::Bool::Decides::nat_tests))]
fn store_event(e: &[u8], n: usize, id: usize) -> Option<Event>
    requires { 10 + n ≡ length e.now }
    ensures { result ≡ from_tab e.now n id 4 }
{
    let len = usize::from(*e.get(HEAD)?);
    if n < 1 + len {
        return None;
    }
    let domain = Part { at: HEAD + 1, len };
    let cookie = rest_of(e, 1 + len);
    Some(Event::Tab {
        id,
        message: TabMessage::Store { domain, cookie },
    })
}

#[tactic(auto, using(rules::proofs::Steps::Read::tab_is, std::proofs::lemmas::Bool::Decides::nat_tests))]
fn tab_event(e: &[u8], n: usize, id: usize, tag: u8) -> Option<Event>
    requires { 10 + n ≡ length e.now }
    ensures { result ≡ from_tab e.now n id tag }
{
    match tag {
        1 if n == 12 => Some(Event::Tab {
            id,
            message: TabMessage::Display(rest_of(e, 0)),
        }),
        2 => socket_event(e, n, id),
        3 => Some(Event::Tab {
            id,
            message: TabMessage::Url(rest_of(e, 0)),
        }),
        4 => store_event(e, n, id),
        5 => Some(Event::Tab {
            id,
            message: TabMessage::Retrieve(rest_of(e, 0)),
        }),
        _ => None,
    }
}

// A result or a document.
#[tactic(auto, using(rules::proofs::Steps::Read::delivered_is))]
fn delivery(e: &[u8]) -> Delivery
    requires { 14 ≤ length e.now }
    ensures { result ≡ delivered e.now }
{
    let tab = num_at::<4>(e, HEAD);
    let body = rest_of(e, 4);
    Delivery { tab, body }
}

fn is_delivery(n: usize, tag: u8) -> bool
    ensures { result ≡ eqb tag 1 && leb 4 n }
{
    tag == 1 && 4 <= n
}

#[tactic(auto, using(rules::proofs::Steps::Read::sent_is, std::proofs::lemmas::Bool::Decides::nat_tests))]
fn sent_event(e: &[u8], n: usize, party: u8, id: usize, tag: u8) -> Option<Event>
    requires { 10 + n ≡ length e.now }
    ensures { result ≡ sent_by e.now n party id tag }
{
    match party {
        1 => seat_event(e, n, id, tag),
        2 => tab_event(e, n, id, tag),
        3 if is_delivery(n, tag) => Some(Event::Process {
            id,
            result: delivery(e),
        }),
        4 if is_delivery(n, tag) => Some(Event::Network {
            id,
            document: delivery(e),
        }),
        _ => None,
    }
}

// The event that some bytes are, for any bytes.
#[tactic(auto, using(rules::proofs::Steps::Read::reading_is, rules::proofs::Steps::Read::sized_head))]
pub fn read(e: &[u8]) -> Option<Event>
    ensures { result ≡ reading_of e.now }
{
    if !is_sized(e) {
        return None;
    }
    sent_event(e, e.len() - HEAD, e[0], num_at::<4>(e, 1), e[5])
}
