// Whether a table is sound, for any bytes: seat by seat, then process row by process row, each looked at once.
#![tactic(auto)]

mod count;
pub mod row;
mod seat;
pub mod tab;

ghost use Rattle.std.specs.Prelude.{◌≡◌};
ghost use Rattle.fields.specs.Table.{sound_table};

use crate::count::count_tabs;
use crate::row::are_rows_good;
use crate::seat::{are_seats_good, sum_of_opens};
use fields::layout::{are_offsets_given, is_long, last};

// Sound, for any bytes. Seats come first: where they are good, a live tab hangs on a live row, and tabs are counted at their rows.
#[tactic(auto, using(fields::specs::Steps::Sound::sound_is))]
pub fn sound(t: &[u8]) -> bool
    ensures { result ≡ sound_table t.now }
{
    is_long(t)
        && are_offsets_given(t)
        && are_seats_good(t)
        && last(t) <= sum_of_opens(t)
        && are_rows_good(t, &count_tabs(t))
}
