// The fields of the trailer.
ghost use Rattle.std.specs.Prelude.{◌≡◌, ◌≤◌, ◌<◌, length};
ghost use Rattle.fields.specs.Table.{view, most_number, table_bytes};
ghost use Rattle.fields.specs.Table.{seats_at, rows_at, last};
ghost use Rattle.fields.specs.Inner.{WroteField};

use crate::layout::{LAST, ROWS_AT, SEATS_AT};
use terms::num::{num_at, put_num};

pub(crate) fn seats_at(t: &[u8]) -> usize
    requires { length t.now ≡ table_bytes }
    ensures { result ≡ view t.now seats_at }
{
    num_at::<2>(t, SEATS_AT)
}

pub(crate) fn rows_at(t: &[u8]) -> usize
    requires { length t.now ≡ table_bytes }
    ensures { result ≡ view t.now rows_at }
{
    num_at::<2>(t, ROWS_AT)
}

pub(crate) fn set_rows_at(t: &mut [u8], x: usize)
    requires { (length t.old ≡ table_bytes) × (x < 65536) }
    ensures { WroteField t.old t.new rows_at x }
{
    put_num::<2>(t, ROWS_AT, x);
}

pub fn last(t: &[u8]) -> usize
    requires { length t.now ≡ table_bytes }
    ensures { (result ≡ view t.now last) × (result ≤ most_number) }
{
    num_at::<4>(t, LAST)
}

pub fn set_last(t: &mut [u8], x: usize)
    requires { (length t.old ≡ table_bytes) × (x ≤ most_number) }
    ensures { WroteField t.old t.new last x }
{
    put_num::<4>(t, LAST, x);
}
