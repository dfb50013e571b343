// A seat opens a suffix.
ghost use Rattle.std.specs.Prelude.{◌≡◌, [], ◌∷◌, ◌+◌, ◌≤◌, ◌<◌, length};
ghost use Rattle.terms.specs.Names.{folded};
ghost use Rattle.fields.specs.Table.{view};
ghost use Rattle.rules.specs.Sheet.{desk_at, reply, open_tab, open_rule, start_process, start_tab, go, bar, new_id};
ghost use Rattle.rules.specs.Inner.{Sent, Fits, Replied, Ready, book_number, open_number, only, open_actions, Opening};
ghost use Rattle.rules.specs.Inner.{Taking, Found, number_given};

use fields::layout::{is_spent, last, opens, tab_id};
use frames::action::Action;
use frames::answer::done;
use frames::send::{send_bare, send_name};
use names::NoSuffix;
use rules::verdict::{Done, Refusal};
use soundness::tab::owner_at;
use table::find::process_with;
use table::slots::live_tabs;

// A sound book, and a suffix that is all of its own suffix under it. The question tells both.
fn check_suffix(book: &[u8], x: &[u8]) -> Result<(), Refusal>
    ensures { number_given result ≡ book_number book.now x.now }
{
    match names::ask(x, book) {
        Ok(own) if own.len() == x.len() => Ok(()),
        Ok(_) => Err(Refusal::BadSuffix),
        Err(NoSuffix::UnsoundBook) => Err(Refusal::BadBook),
        Err(NoSuffix::Unfit) => Err(Refusal::BadSuffix),
    }
}

// An open that the book and the table take.
fn check_open(t: &[u8], book: &[u8], x: &[u8], s: usize) -> Result<(), Refusal>
    requires { Opening t.now s }
    ensures { number_given result ≡ open_number (desk_at t.now s) book.now x.now }
{
    check_suffix(book, x)?;
    if live_tabs(t, s) == 10 {
        return Err(Refusal::FullSeat);
    }
    if is_spent(t, s) {
        return Err(Refusal::SpentSeat);
    }
    Ok(())
}

// Start process, if it is a new one.
fn send_process(out: &mut [u8], new: bool, n: usize, owner: u8, x: &[u8]) -> usize
    requires { Fits out.old 0 n (1 + length x.now) }
    ensures { Sent out.old 0 (only new (start_process n owner (folded x.now))) out.new result }
{
    if !new {
        return 0;
    }
    let lead = [owner];
    send_name(out, 0, Action::StartProcess, n, &lead, x)
}

// Start tab, go, bar.
fn send_tab(out: &mut [u8], at: usize, s: usize, i: usize, x: &[u8]) -> usize
    requires { (at + 200 ≤ length out.old) × (length x.now ≤ 64) × (s ≤ 8) × (i < 4294967296) }
    ensures { Sent out.old at (start_tab i ∷ go i (folded x.now) ∷ bar s (folded x.now) ∷ []) out.new result }
{
    let a = send_bare(out, at, Action::StartTab, i);
    let b = send_name(out, a, Action::Go, i, b"", x);
    send_name(out, b, Action::Bar, s, b"", x)
}

// All of them, where the owner's process with this suffix is new or there already.
fn send_open(t: &[u8], out: &mut [u8], s: usize, new: bool, owner: u8, x: &[u8]) -> usize
    requires { Taking t.now out.old s x.now × Found t.now s x.now owner new }
    ensures { Sent out.old 0 (open_actions (desk_at t.now s) (new_id (view t.now) s) x.now) out.new result }
{
    let i = tab_id(s, opens(t, s) + 1);
    let a = send_process(out, new, last(t) + 1, owner, x);
    send_tab(out, a, s, i, x)
}

// An open that nothing refuses.
fn take(t: &mut [u8], out: &mut [u8], s: usize, x: &[u8]) -> Result<Done, Refusal>
    requires { Taking t.old out.old s x.now }
    ensures { Replied t.old s (reply (open_actions (desk_at t.old s) (new_id (view t.old) s) x.now) (open_tab x.now)) out.old t.new out.new result }
{
    let owner = owner_at(t, s);
    let p = process_with(t, owner, x);
    let new = p.is_none();
    let n = send_open(t, out, s, new, owner, x);
    table::open::open(t, s, p, x);
    if new { done(4, n) } else { done(3, n) }
}

pub fn open(t: &mut [u8], book: &[u8], out: &mut [u8], s: usize, x: &[u8]) -> Result<Done, Refusal>
    requires { Ready t.old out.old s }
    ensures { Replied t.old s (open_rule (desk_at t.old s) book.now x.now) out.old t.new out.new result }
{
    check_open(t, book, x, s)?;
    take(t, out, s, x)
}
