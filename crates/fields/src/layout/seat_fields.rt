// The fields of a seat.
ghost use Rattle.std.specs.Prelude.{◌≡◌, ◌≤◌, ◌<◌, eqb};
ghost use Rattle.fields.specs.Table.{view, most_opens, SeatOf};
ghost use Rattle.fields.specs.Table.{tenant, options, selected, seat_zero, opens, slots};
ghost use Rattle.fields.specs.Inner.{WroteField};

use crate::layout::{MOST_OPENS, seat_at};
use terms::num::{num_at, put_num};

pub fn tenant(t: &[u8], s: usize) -> u8
    requires { SeatOf t.now s }
    ensures { result ≡ view t.now (tenant s) }
{
    t[seat_at(s)]
}

pub fn set_tenant(t: &mut [u8], s: usize, x: u8)
    requires { SeatOf t.old s }
    ensures { WroteField t.old t.new (tenant s) x }
{
    t[seat_at(s)] = x;
}

pub fn options(t: &[u8], s: usize) -> u8
    requires { SeatOf t.now s }
    ensures { result ≡ view t.now (options s) }
{
    t[seat_at(s) + 1]
}

pub fn set_options(t: &mut [u8], s: usize, x: u8)
    requires { SeatOf t.old s }
    ensures { WroteField t.old t.new (options s) x }
{
    t[seat_at(s) + 1] = x;
}

pub fn selected(t: &[u8], s: usize) -> usize
    requires { SeatOf t.now s }
    ensures { (result ≡ view t.now (selected s)) × (result < 256) }
{
    usize::from(t[seat_at(s) + 2])
}

pub fn set_selected(t: &mut [u8], s: usize, x: usize)
    requires { (SeatOf t.old s) × (x < 256) }
    ensures { WroteField t.old t.new (selected s) x }
{
    t[seat_at(s) + 2] = x as u8;
}

pub fn seat_zero(t: &[u8], s: usize) -> u8
    requires { SeatOf t.now s }
    ensures { result ≡ view t.now (seat_zero s) }
{
    t[seat_at(s) + 3]
}

pub fn opens(t: &[u8], s: usize) -> usize
    requires { SeatOf t.now s }
    ensures { (result ≡ view t.now (opens s)) × (result ≤ most_opens) }
{
    num_at::<2>(t, seat_at(s) + 4)
}

pub fn set_opens(t: &mut [u8], s: usize, x: usize)
    requires { (SeatOf t.old s) × (x ≤ most_opens) }
    ensures { WroteField t.old t.new (opens s) x }
{
    put_num::<2>(t, seat_at(s) + 4, x);
}

// No open is left to the seat.
pub fn is_spent(t: &[u8], s: usize) -> bool
    requires { SeatOf t.now s }
    ensures { result ≡ eqb (view t.now (opens s)) most_opens }
{
    opens(t, s) == MOST_OPENS
}

pub fn slots(t: &[u8], s: usize) -> usize
    requires { SeatOf t.now s }
    ensures { (result ≡ view t.now (slots s)) × (result < 65536) }
{
    num_at::<2>(t, seat_at(s) + 6)
}

pub fn set_slots(t: &mut [u8], s: usize, x: usize)
    requires { (SeatOf t.old s) × (x < 65536) }
    ensures { WroteField t.old t.new (slots s) x }
{
    put_num::<2>(t, seat_at(s) + 6, x);
}
