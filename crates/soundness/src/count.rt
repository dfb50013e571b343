// The tabs of each process row, counted in one pass over the tab rows.
ghost use Rattle.std.specs.Prelude.{◌≡◌, true, ◌-◌, length};
ghost use Rattle.fields.specs.Base.{each};
ghost use Rattle.fields.specs.Table.{view, used, pointing, table_bytes, most_opens, SeatOf, RowOf};
ghost use Rattle.fields.specs.Inner.{seat_good, tabs_true, TabCounts};

use crate::tab::is_live;
use fields::layout::{SEATS, SLOTS, row, tabs};

// The tabs of seats 1 to s - 1 are counted; those of seat s are next. Counts stand at the numbers of their rows.
fn count_seat(t: &[u8], s: usize, counts: &mut [u8; 81])
    requires { (SeatOf t.now s) × (seat_good most_opens (view t.now) s ≡ true) × (TabCounts (view t.now) (s - 1) counts.old) }
    ensures { TabCounts (view t.now) s counts.new }
{
    for k in 1..SLOTS + 1 {
        if is_live(t, s, k) {
            counts[row(t, s, k)] += 1;
        }
    }
}

pub(crate) fn count_tabs(t: &[u8]) -> [u8; 81]
    requires { (length t.now ≡ table_bytes) × (each 8 (λ s. seat_good most_opens (view t.now) s) ≡ true) }
    ensures { TabCounts (view t.now) 8 result }
{
    let mut counts = [0u8; 81];
    for s in 1..SEATS + 1 {
        count_seat(t, s, &mut counts);
    }
    counts
}

// The tab count of a live row is true and not 0. `n` is how many tabs point at it.
#[tactic(auto, using(fields::specs::Steps::Count::true_is))]
pub(crate) fn are_tabs_true(t: &[u8], p: usize, n: usize) -> bool
    requires { (RowOf t.now p) × (used (view t.now) p ≡ true) × (n ≡ pointing (view t.now) p) }
    ensures { result ≡ tabs_true (view t.now) p }
{
    let m = tabs(t, p);
    m != 0 && m == n
}
