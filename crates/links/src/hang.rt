// A tab hung on a process row and taken off it, a process row made and cleared: the fields of each, written in order.
ghost use Rattle.std.specs.Prelude.{◌≡◌, ◌-◌, ◌^◌, ◌≤◌};
ghost use Rattle.terms.specs.Base.{Range};
ghost use Rattle.fields.specs.Table.{RowOf};
ghost use Rattle.fields.specs.Inner.{Left, hung, row_made, unhung, cleared, Hangable, Makable, Unhangable};

use fields::layout::{
    last, opens, set_last, set_number, set_opens, set_owner, set_row, set_selected, set_serial,
    set_size, set_slots, set_tabs, set_waiting, slots, tabs,
};
use letters::spell::spell;

// The weight of a slot's bit in the map.
fn bit_of(k: usize) -> usize
    requires { Range 1 10 k }
    ensures { (result ≡ 2 ^ (k - 1)) × (result ≤ 512) }
{
    1usize << (k - 1)
}

pub fn hang(t: &mut [u8], s: usize, k: usize, p: usize)
    requires { Hangable t.old s k p }
    ensures { Left t.new (hung t.old s k p) }
{
    let next = opens(t, s) + 1;
    let map = slots(t, s) + bit_of(k);
    let count = tabs(t, p) + 1;
    set_serial(t, s, k, next);
    set_row(t, s, k, p);
    set_waiting(t, s, k, 0);
    set_selected(t, s, k);
    set_opens(t, s, next);
    set_slots(t, s, map);
    set_tabs(t, p, count);
}

pub fn make(t: &mut [u8], p: usize, o: u8, suffix: &[u8])
    requires { Makable t.old p suffix.now }
    ensures { Left t.new (row_made t.old p o suffix.now) }
{
    let next = last(t) + 1;
    set_number(t, p, next);
    set_owner(t, p, o);
    set_size(t, p, suffix.len());
    spell(t, p, suffix);
    set_last(t, next);
}

pub fn unhang(t: &mut [u8], s: usize, k: usize, p: usize)
    requires { Unhangable t.old s k p }
    ensures { Left t.new (unhung t.old s k p) }
{
    let map = slots(t, s);
    let rest = map - bit_of(k);
    let count = tabs(t, p) - 1;
    set_serial(t, s, k, 0);
    set_row(t, s, k, 0);
    set_waiting(t, s, k, 0);
    set_selected(t, s, 0);
    set_slots(t, s, rest);
    set_tabs(t, p, count);
}

pub fn clear(t: &mut [u8], p: usize)
    requires { RowOf t.old p }
    ensures { Left t.new (cleared t.old p) }
{
    set_number(t, p, 0);
    set_owner(t, p, 0);
    set_tabs(t, p, 0);
    set_size(t, p, 0);
    spell(t, p, &[]);
}
