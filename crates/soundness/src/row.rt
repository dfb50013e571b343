// A process row: in itself, and beside the rows below it.
ghost use Rattle.std.specs.Prelude.{◌≡◌, true, not, ◌-◌, length};
ghost use Rattle.fields.specs.Base.{each};
ghost use Rattle.fields.specs.Table.{view, owner, used, pointing, table_bytes, RowOf};
ghost use Rattle.fields.specs.Inner.{bare_row, filled, good_name, clash, row_good, Named, TabCounts};

use crate::count::are_tabs_true;
use fields::layout::{ROOM, ROWS, last, name, number, owner, row_zero, size, tabs};
use letters::{are_dotless, are_same, are_small, is_filled};
use terms::name::is_name;

#[tactic(auto, using(fields::specs::Steps::Row::used_is))]
pub fn is_used(t: &[u8], p: usize) -> bool
    requires { RowOf t.now p }
    ensures { result ≡ used (view t.now) p }
{
    number(t, p) != 0
}

// ---- in itself

// A free row has no owner, no name, no tabs and no letter.
#[tactic(auto, using(fields::specs::Steps::Row::bare_is))]
fn is_empty_row(t: &[u8], p: usize) -> bool
    requires { RowOf t.now p }
    ensures { result ≡ bare_row (view t.now) p }
{
    owner(t, p) == 0 && size(t, p) == 0 && tabs(t, p) == 0 && is_filled(t, p)
}

// The letters after the name are zero, so that all of the room tells whether the name has a capital or a dot.
#[tactic(auto, using(fields::specs::Steps::Row::name_is))]
fn is_name_good(t: &[u8], p: usize) -> bool
    requires { (RowOf t.now p) × (filled (view t.now) p ≡ true) }
    ensures { result ≡ good_name (view t.now) p }
{
    (3..=ROOM).contains(&size(t, p)) && is_name(name(t, p)) && are_small(t, p) && !are_dotless(t, p)
}

// ---- beside the rows below

// Two rows with one number, or with one owner and one name. `o` is the owner of row p.
#[tactic(auto, using(fields::specs::Steps::Clash::clash_is))]
fn is_clash(t: &[u8], q: usize, p: usize, o: u8) -> bool
    requires { (RowOf t.now q) × (RowOf t.now p) × (row_good (view t.now) q ≡ true) × (Named (view t.now) p) × (o ≡ view t.now (owner p)) }
    ensures { result ≡ clash (view t.now) q p }
{
    number(t, q) == number(t, p)
        || owner(t, q) == o && size(t, q) == size(t, p) && are_same(t, q, p)
}

// No row below clashes with this one. The rows below are good, so that equal names are equal letters.
fn is_row_new(t: &[u8], p: usize) -> bool
    requires { (RowOf t.now p) × (Named (view t.now) p) × (each (p - 1) (λ q. row_good (view t.now) q) ≡ true) }
    ensures { result ≡ each (p - 1) (λ q. not (clash (view t.now) q p)) }
{
    let o = owner(t, p);
    (1..p).all(|q| !is_clash(t, q, p, o))
}

// The rows below are good, and n tabs point at this one.
#[tactic(auto, using(fields::specs::Steps::Row::row_is))]
fn is_row_good(t: &[u8], p: usize, n: usize) -> bool
    requires { (RowOf t.now p) × (each (p - 1) (λ q. row_good (view t.now) q) ≡ true) × (n ≡ pointing (view t.now) p) }
    ensures { result ≡ row_good (view t.now) p }
{
    if row_zero(t, p) != 0 {
        return false;
    }
    if !is_used(t, p) {
        return is_empty_row(t, p);
    }
    number(t, p) <= last(t)
        && is_filled(t, p)
        && is_name_good(t, p)
        && are_tabs_true(t, p, n)
        && is_row_new(t, p)
}

pub(crate) fn are_rows_good(t: &[u8], counts: &[u8; 81]) -> bool
    requires { (length t.now ≡ table_bytes) × (TabCounts (view t.now) 8 counts.now) }
    ensures { result ≡ each 80 (λ p. row_good (view t.now) p) }
{
    (1..ROWS + 1).all(|p| is_row_good(t, p, usize::from(counts[p])))
}
