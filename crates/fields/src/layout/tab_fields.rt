// The fields of a tab row.
ghost use Rattle.std.specs.Prelude.{◌≡◌, ◌≤◌, ◌<◌};
ghost use Rattle.fields.specs.Table.{view, most_opens, TabOf};
ghost use Rattle.fields.specs.Table.{serial, row, waiting};
ghost use Rattle.fields.specs.Inner.{WroteField};

use crate::layout::tab_at;
use terms::num::{num_at, put_num};

pub fn serial(t: &[u8], s: usize, k: usize) -> usize
    requires { TabOf t.now s k }
    ensures { (result ≡ view t.now (serial s k)) × (result ≤ most_opens) }
{
    num_at::<2>(t, tab_at(s, k))
}

pub fn set_serial(t: &mut [u8], s: usize, k: usize, x: usize)
    requires { (TabOf t.old s k) × (x ≤ most_opens) }
    ensures { WroteField t.old t.new (serial s k) x }
{
    put_num::<2>(t, tab_at(s, k), x);
}

pub fn row(t: &[u8], s: usize, k: usize) -> usize
    requires { TabOf t.now s k }
    ensures { (result ≡ view t.now (row s k)) × (result < 256) }
{
    usize::from(t[tab_at(s, k) + 2])
}

pub fn set_row(t: &mut [u8], s: usize, k: usize, x: usize)
    requires { (TabOf t.old s k) × (x < 256) }
    ensures { WroteField t.old t.new (row s k) x }
{
    t[tab_at(s, k) + 2] = x as u8;
}

pub fn waiting(t: &[u8], s: usize, k: usize) -> usize
    requires { TabOf t.now s k }
    ensures { (result ≡ view t.now (waiting s k)) × (result < 256) }
{
    usize::from(t[tab_at(s, k) + 3])
}

pub fn set_waiting(t: &mut [u8], s: usize, k: usize, x: usize)
    requires { (TabOf t.old s k) × (x < 256) }
    ensures { WroteField t.old t.new (waiting s k) x }
{
    t[tab_at(s, k) + 3] = x as u8;
}
