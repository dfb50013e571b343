// What a rule sees of the tab in a slot, read from the table.
ghost use Rattle.std.specs.Prelude.{◌≡◌, ◌<◌};
ghost use Rattle.fields.specs.Table.{TabLive};
ghost use Rattle.rules.specs.Sheet.{desk_at};

use fields::layout::{name, number, row, serial, tab_id, tabs};

pub fn id(t: &[u8], s: usize, k: usize) -> usize
    requires { TabLive t.now s k }
    ensures { (result ≡ (desk_at t.now s).id k) × (result < 4294967296) }
{
    tab_id(s, serial(t, s, k))
}

pub fn suffix<'t>(t: &'t [u8], s: usize, k: usize) -> &'t [u8]
    requires { TabLive t.now s k }
    ensures { result.now ≡ (desk_at t.now s).suffix k }
{
    name(t, row(t, s, k))
}

pub fn process(t: &[u8], s: usize, k: usize) -> usize
    requires { TabLive t.now s k }
    ensures { (result ≡ (desk_at t.now s).process k) × (result < 4294967296) }
{
    number(t, row(t, s, k))
}

// The tab is its process's last.
pub fn is_last(t: &[u8], s: usize, k: usize) -> bool
    requires { TabLive t.now s k }
    ensures { result ≡ (desk_at t.now s).last_tab k }
{
    tabs(t, row(t, s, k)) == 1
}
