// What a tab may wait for: marks set and cleared.
ghost use Rattle.std.specs.Prelude.{◌≡◌, true, false};
ghost use Rattle.fields.specs.Table.{view, waits, marked, unmarked, TabOf, TabLive};

use fields::layout::{set_waiting, waiting};
use fields::mark::Mark;

// The tab waits for it.
pub fn is_waiting(t: &[u8], s: usize, k: usize, m: Mark) -> bool
    requires { TabOf t.now s k }
    ensures { result ≡ waits (view t.now) s k m }
{
    let now = waiting(t, s, k);
    now == m as usize || now == 3
}

// A live tab that does not wait for it waits for it from now on.
pub fn set_mark(t: &mut [u8], s: usize, k: usize, m: Mark)
    requires { (TabLive t.old s k) × (waits (view t.old) s k m ≡ false) }
    ensures { t.new ≡ marked t.old s k m }
{
    let now = waiting(t, s, k);
    set_waiting(t, s, k, now + m as usize);
}

// A live tab that waits for it waits no more.
pub fn clear_mark(t: &mut [u8], s: usize, k: usize, m: Mark)
    requires { (TabLive t.old s k) × (waits (view t.old) s k m ≡ true) }
    ensures { t.new ≡ unmarked t.old s k m }
{
    let now = waiting(t, s, k);
    set_waiting(t, s, k, now - m as usize);
}
