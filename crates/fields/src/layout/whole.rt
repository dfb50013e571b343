// The table as a whole: its length, its offsets, and all of it zero but for the trailer.
ghost use Rattle.std.specs.Prelude.{◌≡◌, eqb, length};
ghost use Rattle.fields.specs.Table.{view, table_bytes};
ghost use Rattle.fields.specs.Inner.{Left, form, offsets_given, blank};

use crate::layout::trailer::{rows_at, seats_at, set_rows_at};
use crate::layout::{ROWS_BEGIN, TABLE};

pub fn is_long(t: &[u8]) -> bool
    ensures { result ≡ eqb (length t.now) table_bytes }
{
    t.len() == TABLE
}

#[tactic(auto, using(crate::specs::Steps::Layout::offsets_is))]
pub fn are_offsets_given(t: &[u8]) -> bool
    requires { length t.now ≡ table_bytes }
    ensures { result ≡ offsets_given form (view t.now) }
{
    seats_at(t) == 0 && rows_at(t) == ROWS_BEGIN
}

pub fn wipe(t: &mut [u8])
    requires { length t.old ≡ table_bytes }
    ensures { Left t.new blank }
{
    t.fill(0);
    set_rows_at(t, ROWS_BEGIN);
}
