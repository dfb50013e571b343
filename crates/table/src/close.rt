// A tab is selected, or the selected tab is closed.
ghost use Rattle.std.specs.Prelude.{◌≡◌};
ghost use Rattle.fields.specs.Table.{picked, closed, TabLive, Closable};

use fields::layout::{row, selected, set_selected, tabs};
use links::hang::{clear, unhang};

// A live tab is selected, even if it is already.
pub fn pick(t: &mut [u8], s: usize, k: usize)
    requires { TabLive t.old s k }
    ensures { t.new ≡ picked t.old s k }
{
    set_selected(t, s, k);
}

// The selected tab is closed, and its process row with it if it was the row's last.
pub fn close(t: &mut [u8], s: usize)
    requires { Closable t.old s }
    ensures { t.new ≡ closed t.old s }
{
    let k = selected(t, s);
    let p = row(t, s, k);
    let count = tabs(t, p);
    unhang(t, s, k, p);
    let last = count == 1;
    if last {
        clear(t, p);
    }
}
