// What a process or the network sends to a tab.
ghost use Rattle.std.specs.Prelude.{◌≡◌, ◌&&◌, [], ◌∷◌, ◌≤◌, length, eqb};
ghost use Rattle.fields.specs.Table.{TabLive};
ghost use Rattle.fields.specs.declared.mark.Mark.TheVariants.{Cookie};
ghost use Rattle.frames.specs.Action.{party_of, tag_of};
ghost use Rattle.rules.specs.Sheet.{framed, desk_at, clear_mark, reply, result_rule, document_rule};
ghost use Rattle.rules.specs.Inner.{Replied, ReadyTab, Awaited};

use fields::mark::Mark;
use frames::action::Action;
use frames::answer::done;
use frames::desk::{id, process};
use frames::send::send_raw;
use rules::verdict::{Done, Refusal};
use table::mark::{clear_mark, is_waiting};

// The tab hangs on process n and waits for a cookie.
#[tactic(auto, using(rules::proofs::Steps::Desk::waits_is, std::proofs::lemmas::Bool::Decides::nat_tests))]
fn is_asked(t: &[u8], s: usize, k: usize, n: usize) -> bool
    requires { TabLive t.now s k }
    ensures { result ≡ eqb ((desk_at t.now s).process k) n && (desk_at t.now s).waits k Cookie }
{
    let on = process(t, s, k);
    on == n && is_waiting(t, s, k, Mark::Cookie)
}

// To a tab that waits for it, which then waits no more.
fn pass_on(
    t: &mut [u8],
    out: &mut [u8],
    s: usize,
    k: usize,
    action: Action,
    m: Mark,
    x: &[u8],
) -> Result<Done, Refusal>
    requires { Awaited t.old out.old s k m x.now }
    ensures { Replied t.old s (reply (framed (party_of action) ((desk_at t.old s).id k) (tag_of action) x.now ∷ []) (clear_mark k m)) out.old t.new out.new result }
{
    let n = send_raw(out, 0, action, id(t, s, k), x);
    clear_mark(t, s, k, m);
    done(1, n)
}

pub fn result(
    t: &mut [u8],
    out: &mut [u8],
    s: usize,
    k: usize,
    n: usize,
    x: &[u8],
) -> Result<Done, Refusal>
    requires { ReadyTab t.old out.old s k × (length x.now ≤ 4096) }
    ensures { Replied t.old s (result_rule (desk_at t.old s) n k x.now) out.old t.new out.new result }
{
    if !is_asked(t, s, k, n) {
        return Err(Refusal::NotAwaited);
    }
    pass_on(t, out, s, k, Action::Cookie, Mark::Cookie, x)
}

pub fn document(t: &mut [u8], out: &mut [u8], s: usize, k: usize, x: &[u8]) -> Result<Done, Refusal>
    requires { ReadyTab t.old out.old s k × (length x.now ≤ 4096) }
    ensures { Replied t.old s (document_rule (desk_at t.old s) k x.now) out.old t.new out.new result }
{
    if !is_waiting(t, s, k, Mark::Document) {
        return Err(Refusal::NotAwaited);
    }
    pass_on(t, out, s, k, Action::Document, Mark::Document, x)
}
