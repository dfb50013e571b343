// Which rule an event asks for, and of which seat or tab.
#![tactic(auto)]

ghost use Rattle.std.specs.Prelude.{◌≡◌};
ghost use Rattle.rules.specs.declared.event.Event.TheVariants.{Seat, Tab, Process, Network};
ghost use Rattle.rules.specs.Sheet.{part, desk_at, seat_rule, tab_rule, event_rule};
ghost use Rattle.rules.specs.Inner.{Decided, Replied, Ready, ReadyTab, PartIn, SeatIn, TabIn, EventIn, Able};

use frames::action::Action;
use rules::event::{Delivery, Event, Part, SeatMessage, TabMessage};
use rules::verdict::{Done, Refusal};
use seats::keys::{key, pass};
use seats::open::open;
use table::find::{is_let, process_of, tab_of};
use tabs::deliver::{document, result};
use tabs::tab::{display, retrieve, socket, store, url};

// The bytes of an event that a part is.
fn part_of<'e>(e: &'e [u8], p: Part) -> &'e [u8]
    requires { PartIn e.now p }
    ensures { result.now ≡ part e.now p }
{
    let at = p.at;
    let end = at + p.len;
    &e[at..end]
}

fn from_seat(
    t: &mut [u8],
    b: &[u8],
    e: &[u8],
    out: &mut [u8],
    s: usize,
    m: SeatMessage,
) -> Result<Done, Refusal>
    requires { Ready t.old out.old s × SeatIn e.now m }
    ensures { Replied t.old s (seat_rule (desk_at t.old s) b.now e.now m) out.old t.new out.new result }
{
    match m {
        SeatMessage::Key(k) => key(t, out, s, k),
        SeatMessage::Mouse(p) => pass(t, out, s, Action::Mouse, part_of(e, p)),
        SeatMessage::Open(p) => open(t, b, out, s, part_of(e, p)),
    }
}

fn from_tab(
    t: &mut [u8],
    book: &[u8],
    e: &[u8],
    out: &mut [u8],
    s: usize,
    k: usize,
    m: TabMessage,
) -> Result<Done, Refusal>
    requires { ReadyTab t.old out.old s k × TabIn e.now m }
    ensures { Replied t.old s (tab_rule (desk_at t.old s) book.now e.now k m) out.old t.new out.new result }
{
    match m {
        TabMessage::Display(p) => display(t, out, s, k, part_of(e, p)),
        TabMessage::Socket { port, host } => socket(t, out, s, k, port, part_of(e, host)),
        TabMessage::Url(u) => url(t, out, s, k, part_of(e, u)),
        TabMessage::Store { domain, cookie } => store(
            t,
            out,
            s,
            k,
            part_of(e, domain),
            part_of(e, cookie),
        ),
        TabMessage::Retrieve(d) => retrieve(t, out, s, k, part_of(e, d)),
    }
}

fn seat_sends(
    t: &mut [u8],
    book: &[u8],
    e: &[u8],
    out: &mut [u8],
    s: usize,
    m: SeatMessage,
) -> Result<Done, Refusal>
    requires { Able t.old out.old × SeatIn e.now m }
    ensures { Decided (event_rule t.old book.now e.now (Seat s m)) out.old t.new out.new result }
{
    if !is_let(t, s) {
        return Err(Refusal::NoSender);
    }
    from_seat(t, book, e, out, s, m)
}

fn tab_sends(
    t: &mut [u8],
    book: &[u8],
    e: &[u8],
    out: &mut [u8],
    i: usize,
    m: TabMessage,
) -> Result<Done, Refusal>
    requires { Able t.old out.old × TabIn e.now m }
    ensures { Decided (event_rule t.old book.now e.now (Tab i m)) out.old t.new out.new result }
{
    let place = tab_of(t, i).ok_or(Refusal::NoSender)?;
    from_tab(t, book, e, out, place.seat, place.slot, m)
}

fn process_sends(
    t: &mut [u8],
    book: &[u8],
    e: &[u8],
    out: &mut [u8],
    n: usize,
    d: Delivery,
) -> Result<Done, Refusal>
    requires { Able t.old out.old × PartIn e.now d.body }
    ensures { Decided (event_rule t.old book.now e.now (Process n d)) out.old t.new out.new result }
{
    process_of(t, n).ok_or(Refusal::NoSender)?;
    let place = tab_of(t, d.tab).ok_or(Refusal::NotAwaited)?;
    result(t, out, place.seat, place.slot, n, part_of(e, d.body))
}

fn network_sends(
    t: &mut [u8],
    b: &[u8],
    e: &[u8],
    out: &mut [u8],
    n: usize,
    d: Delivery,
) -> Result<Done, Refusal>
    requires { Able t.old out.old × PartIn e.now d.body }
    ensures { Decided (event_rule t.old b.now e.now (Network n d)) out.old t.new out.new result }
{
    if n != 0 {
        return Err(Refusal::NoSender);
    }
    let place = tab_of(t, d.tab).ok_or(Refusal::NotAwaited)?;
    document(t, out, place.seat, place.slot, part_of(e, d.body))
}

// An event of a sound table, with room enough.
pub fn serve(t: &mut [u8], book: &[u8], e: &[u8], out: &mut [u8], v: Event) -> Result<Done, Refusal>
    requires { Able t.old out.old × EventIn e.now v }
    ensures { Decided (event_rule t.old book.now e.now v) out.old t.new out.new result }
{
    match v {
        Event::Seat { id, message } => seat_sends(t, book, e, out, id, message),
        Event::Tab { id, message } => tab_sends(t, book, e, out, id, message),
        Event::Process { id, result } => process_sends(t, book, e, out, id, result),
        Event::Network { id, document } => network_sends(t, book, e, out, id, document),
    }
}
