// The map of occupied slots: how many tabs are live, and the lowest free slot, each from the map's bits alone.
ghost use Rattle.std.specs.Prelude.{◌≡◌, true};
ghost use Rattle.terms.specs.Base.{Range};
ghost use Rattle.fields.specs.Table.{view, sound_table, free_slot, live_tabs, HasSlot};

use fields::layout::slots;

// How many tabs of a seat are live.
pub fn live_tabs(t: &[u8], s: usize) -> usize
    requires { (sound_table t.now ≡ true) × (Range 1 8 s) }
    ensures { result ≡ live_tabs (view t.now) s }
{
    slots(t, s).count_ones() as usize
}

// The lowest free slot of a seat that has one.
pub fn free_slot(t: &[u8], s: usize) -> usize
    requires { HasSlot t.now s }
    ensures { (result ≡ free_slot (view t.now) s) × (Range 1 10 result) }
{
    (!slots(t, s)).trailing_zeros() as usize + 1
}
