// What a tab asks for.
ghost use Rattle.std.specs.Prelude.{◌≡◌, not, ◌&&◌, [], ◌∷◌, ◌+◌, ◌≤◌, ◌<◌, length};
ghost use Rattle.fields.specs.Table.{TabLive};
ghost use Rattle.fields.specs.declared.mark.Mark.TheVariants.{Cookie, Document};
ghost use Rattle.rules.specs.Sheet.{desk_at, is_url, cookie_domain, error, reply, stay};
ghost use Rattle.rules.specs.Sheet.{display_rule, socket_rule, url_rule, store_rule, retrieve_rule};
ghost use Rattle.rules.specs.Inner.{Replied, ReadyTab};

use crate::allow::{is_cookie_domain, is_socket_allowed, is_url};
use fields::layout::selected;
use fields::mark::Mark;
use frames::action::Action;
use frames::answer::done;
use frames::desk::{id, process, suffix};
use frames::send::{send, send_bare, send_name, send_raw};
use rules::verdict::{Done, Refusal};
use table::mark::{is_waiting, set_mark};

// One error action to the tab.
fn deny(t: &[u8], out: &mut [u8], s: usize, k: usize) -> Result<Done, Refusal>
    requires { ReadyTab t.now out.old s k }
    ensures { Replied t.now s (reply (error ((desk_at t.now s).id k) ∷ []) stay) out.old t.now out.new result }
{
    let n = send_bare(out, 0, Action::Error, id(t, s, k));
    done(1, n)
}

pub fn display(t: &[u8], out: &mut [u8], s: usize, k: usize, x: &[u8]) -> Result<Done, Refusal>
    requires { ReadyTab t.now out.old s k × (length x.now ≤ 4096) }
    ensures { Replied t.now s (display_rule (desk_at t.now s) k x.now) out.old t.now out.new result }
{
    if selected(t, s) != k {
        return done(0, 0);
    }
    let n = send_raw(out, 0, Action::Paint, s, x);
    done(1, n)
}

pub fn socket(
    t: &[u8],
    out: &mut [u8],
    s: usize,
    k: usize,
    port: usize,
    host: &[u8],
) -> Result<Done, Refusal>
    requires { ReadyTab t.now out.old s k × (2 + length host.now ≤ 4096) × (port < 65536) }
    ensures { Replied t.now s (socket_rule (desk_at t.now s) k port host.now) out.old t.now out.new result }
{
    if !is_socket_allowed(port, host, suffix(t, s, k)) {
        return deny(t, out, s, k);
    }
    let lead = (port as u16).to_be_bytes();
    let n = send_name(out, 0, Action::OpenSocket, id(t, s, k), &lead, host);
    done(1, n)
}

#[tactic(auto, using(rules::proofs::Steps::Desk::waits_is))]
fn may_fetch(t: &[u8], s: usize, k: usize, u: &[u8]) -> bool
    requires { TabLive t.now s k }
    ensures { result ≡ is_url u.now && not ((desk_at t.now s).waits k Document) }
{
    is_url(u) && !is_waiting(t, s, k, Mark::Document)
}

pub fn url(t: &mut [u8], out: &mut [u8], s: usize, k: usize, u: &[u8]) -> Result<Done, Refusal>
    requires { ReadyTab t.old out.old s k × (length u.now ≤ 4096) }
    ensures { Replied t.old s (url_rule (desk_at t.old s) k u.now) out.old t.new out.new result }
{
    if !may_fetch(t, s, k, u) {
        return deny(t, out, s, k);
    }
    let n = send_raw(out, 0, Action::Fetch, id(t, s, k), u);
    set_mark(t, s, k, Mark::Document);
    done(1, n)
}

pub fn store(
    t: &[u8],
    out: &mut [u8],
    s: usize,
    k: usize,
    domain: &[u8],
    x: &[u8],
) -> Result<Done, Refusal>
    requires { ReadyTab t.now out.old s k × (1 + length domain.now + length x.now ≤ 4096) × (length domain.now < 256) }
    ensures { Replied t.now s (store_rule (desk_at t.now s) k domain.now x.now) out.old t.now out.new result }
{
    if !is_cookie_domain(domain, suffix(t, s, k)) {
        return deny(t, out, s, k);
    }
    let lead = [domain.len() as u8];
    let n = send(out, 0, Action::Set, process(t, s, k), &lead, domain, x);
    done(1, n)
}

#[tactic(auto, using(rules::proofs::Steps::Desk::waits_is))]
fn may_retrieve(t: &[u8], s: usize, k: usize, domain: &[u8]) -> bool
    requires { TabLive t.now s k }
    ensures { result ≡ cookie_domain domain.now ((desk_at t.now s).suffix k) && not ((desk_at t.now s).waits k Cookie) }
{
    is_cookie_domain(domain, suffix(t, s, k)) && !is_waiting(t, s, k, Mark::Cookie)
}

pub fn retrieve(
    t: &mut [u8],
    out: &mut [u8],
    s: usize,
    k: usize,
    domain: &[u8],
) -> Result<Done, Refusal>
    requires { ReadyTab t.old out.old s k }
    ensures { Replied t.old s (retrieve_rule (desk_at t.old s) k domain.now) out.old t.new out.new result }
{
    if !may_retrieve(t, s, k, domain) {
        return deny(t, out, s, k);
    }
    let lead = (id(t, s, k) as u32).to_be_bytes();
    let n = send_name(out, 0, Action::Get, process(t, s, k), &lead, domain);
    set_mark(t, s, k, Mark::Cookie);
    done(1, n)
}
