// The updates of the table layer, each done where nothing stands against it.
ghost use Rattle.table_changes.specs.Seat.{LetSeat};

use crate::shape::{Update, mark_at};
use crate::why;
use crate::why::Why;
use fields::mark::Mark;
use runs::hexed::bytes_of;
use runs::number::number_at;
use runs::parts::word;
use soundness::tab::owner_at;
use table::find::process_with;

// A start is refused.
#[derive(Clone, Copy)]
pub struct UnsoundBook;

fn fresh_from(t: &mut [u8], book: &[u8]) -> Result<(), UnsoundBook> {
    if !fields::layout::is_long(t) || !names::book::is_sound(book) {
        return Err(UnsoundBook);
    }
    table::fresh::fresh(t, book);
    Ok(())
}

// From the book that a word is in hex. One that there is no room for counts as empty.
pub fn fresh(t: &mut [u8], w: &[u8]) -> Result<(), UnsoundBook> {
    let mut book = [0u8; 4096];
    let n = bytes_of(&mut book, w).unwrap_or(0);
    fresh_from(t, &book[..n])
}

#[tactic(auto, using(fields::specs::Laws::Asked::open_seat))]
fn open(t: &mut [u8], s: usize, suffix: &[u8]) -> Result<(), Why>
    requires { LetSeat t.old s }
{
    why::open(t, s, suffix)?;
    let p = process_with(t, owner_at(t, s), suffix);
    table::open::open(t, s, p, suffix);
    Ok(())
}

fn pick(t: &mut [u8], s: usize, k: usize) -> Result<(), Why>
    requires { LetSeat t.old s }
{
    why::tab(t, s, k)?;
    table::close::pick(t, s, k);
    Ok(())
}

#[tactic(auto, using(crate::proofs::Seats::seat_of))]
fn close(t: &mut [u8], s: usize) -> Result<(), Why>
    requires { LetSeat t.old s }
{
    if fields::layout::selected(t, s) == 0 {
        return Err(Why::NoTab);
    }
    table::close::close(t, s);
    Ok(())
}

#[tactic(auto, using(fields::specs::Laws::Asked::live_tab))]
fn mark(t: &mut [u8], s: usize, k: usize, m: Mark) -> Result<(), Why>
    requires { LetSeat t.old s }
{
    why::tab(t, s, k)?;
    if table::mark::is_waiting(t, s, k, m) {
        return Err(Why::Waits);
    }
    table::mark::set_mark(t, s, k, m);
    Ok(())
}

#[tactic(auto, using(fields::specs::Laws::Asked::live_tab))]
fn unmark(t: &mut [u8], s: usize, k: usize, m: Mark) -> Result<(), Why>
    requires { LetSeat t.old s }
{
    why::tab(t, s, k)?;
    if !table::mark::is_waiting(t, s, k, m) {
        return Err(Why::WaitsNot);
    }
    table::mark::clear_mark(t, s, k, m);
    Ok(())
}

pub fn on_seat(t: &mut [u8], s: usize, l: &[u8], update: Update) -> Result<(), Why> {
    why::let_seat(t, s)?;
    match update {
        Update::Open => open(t, s, word(l, 2)),
        Update::Pick => pick(t, s, number_at(l, 2)),
        Update::Close => close(t, s),
        Update::Mark => mark(t, s, number_at(l, 2), mark_at(l, 3)),
        Update::Unmark => unmark(t, s, number_at(l, 2), mark_at(l, 3)),
    }
}
