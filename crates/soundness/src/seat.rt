// A seat: its fields, its map and its ten tab rows.
ghost use Rattle.std.specs.Prelude.{◌≡◌, ◌≤◌, length};
ghost use Rattle.fields.specs.Base.{each, sum, bits};
ghost use Rattle.fields.specs.Table.{view, live, opens, table_bytes, most_opens, SeatOf};
ghost use Rattle.fields.specs.Inner.{empty_tab, empty_seat, seat_in_range, let_or_empty, selected_live, tab_good, seat_good};

use crate::tab::{is_empty_tab, is_live, is_tab_good};
use fields::layout::{SEATS, SLOTS, opens, options, seat_zero, selected, slots, tenant};
use terms::order::are_legal_options;

#[tactic(auto, using(fields::specs::Steps::Seat::range_is))]
fn is_in_range(t: &[u8], s: usize) -> bool
    requires { SeatOf t.now s }
    ensures { result ≡ seat_in_range (view t.now) s }
{
    tenant(t, s) <= 99 && are_legal_options(options(t, s)) && selected(t, s) <= SLOTS
}

fn are_tabs_empty(t: &[u8], s: usize) -> bool
    requires { SeatOf t.now s }
    ensures { result ≡ each 10 (λ k. empty_tab (view t.now) s k) }
{
    (1..SLOTS + 1).all(|k| is_empty_tab(t, s, k))
}

#[tactic(auto, using(fields::specs::Steps::Seat::vacant_is))]
fn is_empty_seat(t: &[u8], s: usize) -> bool
    requires { SeatOf t.now s }
    ensures { result ≡ empty_seat (view t.now) s }
{
    options(t, s) == 0
        && selected(t, s) == 0
        && opens(t, s) == 0
        && slots(t, s) == 0
        && are_tabs_empty(t, s)
}

// A seat that is not let is zero.
#[tactic(auto, using(fields::specs::Steps::Seat::let_is))]
fn is_let_or_empty(t: &[u8], s: usize) -> bool
    requires { SeatOf t.now s }
    ensures { result ≡ let_or_empty (view t.now) s }
{
    tenant(t, s) != 0 || is_empty_seat(t, s)
}

// The map that the tab rows say.
fn map_of_rows(t: &[u8], s: usize) -> usize
    requires { SeatOf t.now s }
    ensures { result ≡ bits 10 (λ k. live (view t.now) s k) }
{
    let mut map: usize = 0;
    for k in 1..SLOTS + 1 {
        map += usize::from(is_live(t, s, k)) << (k - 1);
    }
    map
}

#[tactic(auto, using(fields::specs::Steps::Seat::selected_is))]
fn is_selected_live(t: &[u8], s: usize) -> bool
    requires { SeatOf t.now s }
    ensures { result ≡ selected_live (view t.now) s }
{
    let k = selected(t, s);
    k == 0 || k <= SLOTS && is_live(t, s, k)
}

// `most` is the seat's opens.
fn are_tabs_good(t: &[u8], s: usize, most: usize) -> bool
    requires { (SeatOf t.now s) × (most ≡ view t.now (opens s)) }
    ensures { result ≡ each 10 (λ k. tab_good (view t.now) s k) }
{
    (1..SLOTS + 1).all(|k| is_tab_good(t, s, k, most))
}

#[tactic(auto, using(fields::specs::Steps::Seat::seat_good_is))]
fn is_seat_good(t: &[u8], s: usize) -> bool
    requires { SeatOf t.now s }
    ensures { result ≡ seat_good most_opens (view t.now) s }
{
    let most = opens(t, s);
    is_in_range(t, s)
        && seat_zero(t, s) == 0
        && is_let_or_empty(t, s)
        && slots(t, s) == map_of_rows(t, s)
        && is_selected_live(t, s)
        && are_tabs_good(t, s, most)
}

pub(crate) fn are_seats_good(t: &[u8]) -> bool
    requires { length t.now ≡ table_bytes }
    ensures { result ≡ each 8 (λ s. seat_good most_opens (view t.now) s) }
{
    (1..SEATS + 1).all(|s| is_seat_good(t, s))
}

pub(crate) fn sum_of_opens(t: &[u8]) -> usize
    requires { length t.now ≡ table_bytes }
    ensures { result ≡ sum 8 (λ s. view t.now (opens s)) }
{
    let mut n: usize = 0;
    for s in 1..SEATS + 1 {
        n += opens(t, s);
    }
    n
}
