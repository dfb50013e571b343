// Tab ids.
ghost use Rattle.std.specs.Prelude.{◌≡◌, ◌≤◌, ◌<◌};
ghost use Rattle.terms.specs.Base.{Range};
ghost use Rattle.fields.specs.Table.{most_opens, tab_id, seat_of_id, serial_of_id};

// How many serials a seat has.
const SERIALS: usize = 65536;

pub fn seat_of_id(i: usize) -> usize
    ensures { result ≡ seat_of_id i }
{
    i / SERIALS
}

pub fn serial_of_id(i: usize) -> usize
    ensures { (result ≡ serial_of_id i) × (result ≤ most_opens) }
{
    i % SERIALS
}

pub fn tab_id(s: usize, n: usize) -> usize
    requires { (Range 1 8 s) × (n ≤ most_opens) }
    ensures { (result ≡ tab_id s n) × (result < 4294967296) }
{
    s * SERIALS + n
}
