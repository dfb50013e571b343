// The fields of a table, read and written by name. Outside this file and those below layout/ the code does not know where a
// field lies, how wide it is, how long the table is, the largest opens, or how a tab id is made.
mod id;
mod row_fields;
mod seat_fields;
mod tab_fields;
mod trailer;
mod whole;

ghost use Rattle.std.specs.Prelude.{◌≡◌, ◌+◌, ◌≤◌};
ghost use Rattle.terms.specs.Base.{Range};
ghost use Rattle.fields.specs.Table.{table_bytes};
ghost use Rattle.fields.specs.Inner.{seat_at, tab_at, row_at};

pub use id::{seat_of_id, serial_of_id, tab_id};
pub use row_fields::{
    letter, name, number, owner, row_zero, set_letter, set_number, set_owner, set_size, set_tabs,
    size, tabs,
};
pub use seat_fields::{
    is_spent, opens, options, seat_zero, selected, set_opens, set_options, set_selected, set_slots,
    set_tenant, slots, tenant,
};
pub use tab_fields::{row, serial, set_row, set_serial, set_waiting, waiting};
pub use trailer::{last, set_last};
pub use whole::{are_offsets_given, is_long, wipe};

// How many seats, slots of a seat and process rows there are, and how many bytes a name has room for.
pub const SEATS: usize = 8;

pub const SLOTS: usize = 10;

pub const ROWS: usize = 80;

pub const ROOM: usize = 64;

const TABLE: usize = 6152;

const SEAT: usize = 48;

const SEAT_HEAD: usize = 8;

const TAB: usize = 4;

const ROWS_BEGIN: usize = 384;

const ROW: usize = 72;

const ROW_HEAD: usize = 8;

const SEATS_AT: usize = 6144;

const ROWS_AT: usize = 6146;

const LAST: usize = 6148;

const MOST_OPENS: usize = 65535;

// Where a seat, a tab row, a process row begins, with room for its bytes.

fn seat_at(s: usize) -> usize
    requires { Range 1 8 s }
    ensures { (result ≡ seat_at s) × (result + 48 ≤ table_bytes) }
{
    SEAT * (s - 1)
}

fn tab_at(s: usize, k: usize) -> usize
    requires { (Range 1 8 s) × (Range 1 10 k) }
    ensures { (result ≡ tab_at s k) × (result + 4 ≤ table_bytes) }
{
    seat_at(s) + SEAT_HEAD + TAB * (k - 1)
}

fn row_at(p: usize) -> usize
    requires { Range 1 80 p }
    ensures { (result ≡ row_at p) × (result + 72 ≤ table_bytes) }
{
    ROWS_BEGIN + ROW * (p - 1)
}
