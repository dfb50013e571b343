// A seat's keys and mouse.
ghost use Rattle.std.specs.Prelude.{◌≡◌, [], ◌∷◌, ℕ, ◌+◌, ◌≤◌, length};
ghost use Rattle.terms.specs.Base.{Range};
ghost use Rattle.fields.specs.Table.{TabLive};
ghost use Rattle.frames.specs.Action.{party_of, tag_of};
ghost use Rattle.rules.specs.Sheet.{framed, desk_at, select_rule, close_rule, pass_rule, plain, key_rule, render, bar};
ghost use Rattle.rules.specs.Sheet.{stop_process};
ghost use Rattle.rules.specs.Inner.{Sent, Replied, Ready, ReadyTab, only, close_actions, Shows, bar_of};

use fields::layout::selected;
use frames::action::Action;
use frames::answer::done;
use frames::desk::{id, is_last, process, suffix};
use frames::send::{send_bare, send_raw};
use rules::verdict::{Done, Refusal};
use soundness::tab::is_live;
use table::close::pick;

// The bar of a seat: the suffix of the tab in slot k, or empty for slot 0.
fn send_bar(t: &[u8], out: &mut [u8], at: usize, s: usize, k: usize) -> usize
    requires { Shows t.now s k × (at + 74 ≤ length out.old) }
    ensures { Sent out.old at (bar s (bar_of (desk_at t.now s) k) ∷ []) out.new result }
{
    if k == 0 {
        return send_bare(out, at, Action::Bar, s);
    }
    send_raw(out, at, Action::Bar, s, suffix(t, s, k))
}

// Render, bar.
fn send_selected(t: &[u8], out: &mut [u8], s: usize, k: usize) -> usize
    requires { ReadyTab t.now out.old s k }
    ensures { Sent out.old 0 (render ((desk_at t.now s).id k) ∷ bar s ((desk_at t.now s).suffix k) ∷ []) out.new result }
{
    let a = send_bare(out, 0, Action::Render, id(t, s, k));
    send_bar(t, out, a, s, k)
}

// F1 to F10.
fn select(t: &mut [u8], out: &mut [u8], s: usize, k: usize) -> Result<Done, Refusal>
    requires { Ready t.old out.old s × Range 1 10 k }
    ensures { Replied t.old s (select_rule (desk_at t.old s) k) out.old t.new out.new result }
{
    if !is_live(t, s, k) {
        return done(0, 0);
    }
    let n = send_selected(t, out, s, k);
    pick(t, s, k);
    done(2, n)
}

// Stop process, if the tab is its last.
fn send_stop(t: &[u8], out: &mut [u8], at: usize, s: usize, k: usize) -> usize
    requires { TabLive t.now s k × (at + 10 ≤ length out.old) }
    ensures { Sent out.old at (only ((desk_at t.now s).last_tab k) (stop_process ((desk_at t.now s).process k))) out.new result }
{
    if !is_last(t, s, k) {
        return at;
    }
    send_bare(out, at, Action::StopProcess, process(t, s, k))
}

// Stop tab, stop process if the tab is its last, empty bar.
fn send_closed(t: &[u8], out: &mut [u8], s: usize, k: usize) -> usize
    requires { ReadyTab t.now out.old s k }
    ensures { Sent out.old 0 (close_actions (desk_at t.now s) k) out.new result }
{
    let a = send_bare(out, 0, Action::StopTab, id(t, s, k));
    let b = send_stop(t, out, a, s, k);
    send_bar(t, out, b, s, 0)
}

// F12.
fn close(t: &mut [u8], out: &mut [u8], s: usize) -> Result<Done, Refusal>
    requires { Ready t.old out.old s }
    ensures { Replied t.old s (close_rule (desk_at t.old s)) out.old t.new out.new result }
{
    let k = selected(t, s);
    if k == 0 {
        return done(0, 0);
    }
    let last = is_last(t, s, k);
    let n = send_closed(t, out, s, k);
    table::close::close(t, s);
    done(if last { 3 } else { 2 }, n)
}

// What goes to the selected tab.
pub fn pass(t: &[u8], out: &mut [u8], s: usize, action: Action, x: &[u8]) -> Result<Done, Refusal>
    requires { Ready t.now out.old s × (length x.now ≤ 4096) }
    ensures { Replied t.now s (pass_rule (desk_at t.now s) (λ (i : ℕ). framed (party_of action) i (tag_of action) x.now)) out.old t.now out.new result }
{
    let k = selected(t, s);
    if k == 0 {
        return done(0, 0);
    }
    let n = send_raw(out, 0, action, id(t, s, k), x);
    done(1, n)
}

// Backspace, tab, line feed, return, and what is seen.
#[tactic(auto, using(rules::proofs::Steps::Keys::plain_is, std::proofs::lemmas::Bool::Decides::nat_tests))]
fn is_plain(k: u8) -> bool
    ensures { result ≡ plain k }
{
    matches!(k, 8..=10 | 13 | 32..=126)
}

pub fn key(t: &mut [u8], out: &mut [u8], s: usize, k: u8) -> Result<Done, Refusal>
    requires { Ready t.old out.old s }
    ensures { Replied t.old s (key_rule (desk_at t.old s) k) out.old t.new out.new result }
{
    match k {
        14..=23 => select(t, out, s, usize::from(k) - 13),
        25 => close(t, out, s),
        _ if is_plain(k) => pass(t, out, s, Action::Key, &[k]),
        _ => Err(Refusal::BadKey),
    }
}
