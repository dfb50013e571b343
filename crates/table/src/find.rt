// What the rules look up: whether a seat is let, the tab of an id, the process of a number, the process of an owner and a
// suffix, a free process row. A process row is given by its number from 1.
ghost use Rattle.std.specs.Prelude.{◌≡◌, not, length, eqb};
ghost use Rattle.std.specs.Option.{IfSome};
ghost use Rattle.terms.specs.Base.{Range, if_any};
ghost use Rattle.fields.specs.Table.{view, tenant, table_bytes, SeatOf, TabOf, RowOf};
ghost use Rattle.fields.specs.Table.{tab_of, process_of, process_with, free_process};
ghost use Rattle.fields.specs.Inner.{slot_of, tab_has, row_has, row_with};

use fields::layout::{
    ROWS, SEATS, SLOTS, name, number, owner, seat_of_id, serial, serial_of_id, tenant,
};
use fields::place::Place;
use soundness::row::is_used;
use soundness::tab::is_live;
use terms::fold::is_same;

// A seat that is let, for any number.
#[tactic(auto, using(fields::specs::Steps::Find::let_is))]
pub fn is_let(t: &[u8], s: usize) -> bool
    requires { length t.now ≡ table_bytes }
    ensures { result ≡ not (eqb (view t.now (tenant s)) 0) }
{
    (1..=SEATS).contains(&s) && tenant(t, s) != 0
}

fn is_tab(t: &[u8], s: usize, k: usize, n: usize) -> bool
    requires { TabOf t.now s k }
    ensures { result ≡ tab_has (view t.now) s n k }
{
    is_live(t, s, k) && serial(t, s, k) == n
}

fn slot_of(t: &[u8], s: usize, n: usize) -> Option<usize>
    requires { SeatOf t.now s }
    ensures { result ≡ if_any (slot_of (view t.now) s n) }
{
    (1..SLOTS + 1).find(|k| is_tab(t, s, *k, n))
}

// The live tab of an id.
pub fn tab_of(t: &[u8], id: usize) -> Option<Place>
    requires { length t.now ≡ table_bytes }
    ensures { result ≡ tab_of (view t.now) id }
{
    let seat = seat_of_id(id);
    if !(1..=SEATS).contains(&seat) {
        return None;
    }
    let slot = slot_of(t, seat, serial_of_id(id))?;
    Some(Place { seat, slot })
}

fn is_numbered(t: &[u8], p: usize, n: usize) -> bool
    requires { RowOf t.now p }
    ensures { result ≡ row_has (view t.now) n p }
{
    is_used(t, p) && number(t, p) == n
}

// The row of the live process of a number.
pub fn process_of(t: &[u8], n: usize) -> Option<usize>
    requires { length t.now ≡ table_bytes }
    ensures found { result ≡ if_any (process_of (view t.now) n) }
    ensures there { IfSome result (Range 1 80) }
{
    (1..ROWS + 1).find(|p| is_numbered(t, *p, n))
}

fn is_with(t: &[u8], p: usize, o: u8, suffix: &[u8]) -> bool
    requires { RowOf t.now p }
    ensures { result ≡ row_with (view t.now) o suffix.now p }
{
    is_used(t, p) && owner(t, p) == o && is_same(name(t, p), suffix)
}

// The row of the live process of an owner and a suffix, whatever the case of the suffix.
pub fn process_with(t: &[u8], o: u8, suffix: &[u8]) -> Option<usize>
    requires { length t.now ≡ table_bytes }
    ensures found { result ≡ if_any (process_with (view t.now) o suffix.now) }
    ensures there { IfSome result (Range 1 80) }
{
    (1..ROWS + 1).find(|p| is_with(t, *p, o, suffix))
}

// The lowest free process row.
pub fn free_process(t: &[u8]) -> Option<usize>
    requires { length t.now ≡ table_bytes }
    ensures found { result ≡ if_any (free_process (view t.now)) }
    ensures there { IfSome result (Range 1 80) }
{
    (1..ROWS + 1).find(|p| !is_used(t, *p))
}
