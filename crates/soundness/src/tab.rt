// A tab row: whether it is live, in form, and hangs on a process row of its seat's owner.
ghost use Rattle.std.specs.Prelude.{◌≡◌, not, ◌-◌};
ghost use Rattle.fields.specs.Base.{each};
ghost use Rattle.fields.specs.Table.{view, opens, live, owner_at, SeatOf, TabOf};
ghost use Rattle.fields.specs.Inner.{empty_tab, same_serial, hangs, tab_good, tab_formed};

use crate::row::is_used;
use fields::layout::{ROWS, options, owner, row, serial, tenant, waiting};
use terms::order::owner_of;

#[tactic(auto, using(fields::specs::Steps::Tab::live_is))]
pub fn is_live(t: &[u8], s: usize, k: usize) -> bool
    requires { TabOf t.now s k }
    ensures { result ≡ live (view t.now) s k }
{
    serial(t, s, k) != 0
}

// The owner of a seat, which is the owner of every process that its tabs hang on.
#[tactic(auto, using(fields::specs::Steps::Tab::owner_is))]
pub fn owner_at(t: &[u8], s: usize) -> u8
    requires { SeatOf t.now s }
    ensures { result ≡ owner_at (view t.now) s }
{
    owner_of(s as u8, tenant(t, s), options(t, s))
}

#[tactic(auto, using(fields::specs::Steps::Tab::empty_is))]
pub(crate) fn is_empty_tab(t: &[u8], s: usize, k: usize) -> bool
    requires { TabOf t.now s k }
    ensures { result ≡ empty_tab (view t.now) s k }
{
    serial(t, s, k) == 0 && row(t, s, k) == 0 && waiting(t, s, k) == 0
}

// `most` is the seat's opens, which its caller has read.
#[tactic(auto, using(fields::specs::Steps::Tab::formed_is))]
pub(crate) fn is_tab_formed(t: &[u8], s: usize, k: usize, most: usize) -> bool
    requires { (TabOf t.now s k) × (most ≡ view t.now (opens s)) }
    ensures { result ≡ tab_formed (view t.now) s k }
{
    if is_live(t, s, k) {
        serial(t, s, k) <= most && waiting(t, s, k) <= 3
    } else {
        is_empty_tab(t, s, k)
    }
}

// A live tab hangs on a live process row of its seat's owner.
#[tactic(auto, using(fields::specs::Steps::Tab::hangs_is))]
pub(crate) fn is_hung(t: &[u8], s: usize, k: usize) -> bool
    requires { TabOf t.now s k }
    ensures { result ≡ hangs (view t.now) s k }
{
    !is_live(t, s, k)
        || {
            let p = row(t, s, k);
            (1..=ROWS).contains(&p) && is_used(t, p) && owner(t, p) == owner_at(t, s)
        }
}

#[tactic(auto, using(fields::specs::Steps::Tab::same_is))]
fn is_same_serial(t: &[u8], s: usize, i: usize, k: usize) -> bool
    requires { (TabOf t.now s i) × (TabOf t.now s k) }
    ensures { result ≡ same_serial (view t.now) s i k }
{
    is_live(t, s, k) && serial(t, s, i) == serial(t, s, k)
}

// No slot below has the serial of this one. A free slot is passed by at once.
fn is_serial_new(t: &[u8], s: usize, k: usize) -> bool
    requires { TabOf t.now s k }
    ensures { result ≡ each (k - 1) (λ i. not (same_serial (view t.now) s i k)) }
{
    !is_live(t, s, k) || (1..k).all(|i| !is_same_serial(t, s, i, k))
}

#[tactic(auto, using(fields::specs::Steps::Tab::good_is))]
pub(crate) fn is_tab_good(t: &[u8], s: usize, k: usize, most: usize) -> bool
    requires { (TabOf t.now s k) × (most ≡ view t.now (opens s)) }
    ensures { result ≡ tab_good (view t.now) s k }
{
    is_tab_formed(t, s, k, most) && is_hung(t, s, k) && is_serial_new(t, s, k)
}
