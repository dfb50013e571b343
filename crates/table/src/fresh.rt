// A fresh table: zeros, the trailer, and the seats as a sound book orders them.
ghost use Rattle.std.specs.Prelude.{◌≡◌, true, ◌+◌, length};
ghost use Rattle.terms.specs.Names.{sound_book};
ghost use Rattle.fields.specs.Table.{table_bytes, fresh};
ghost use Rattle.fields.specs.Inner.{Left, ordered, Orderable};

use fields::layout::{SEATS, set_options, set_tenant, wipe};
use names::book::letting_of;
use terms::order::Letting;

// Seats 1 to n are ordered; seat n + 1 is next.
fn order_next(t: &mut [u8], book: &[u8], n: usize)
    requires { Orderable t.old book.now n }
    ensures { Left t.new (ordered book.now (n + 1)) }
{
    let s = n + 1;
    let Letting { tenant, options } = letting_of(book, s as u8).unwrap_or_default();
    set_tenant(t, s, tenant);
    set_options(t, s, options);
}

// The table of a book, whatever was there before.
pub fn fresh(t: &mut [u8], book: &[u8])
    requires { (length t.old ≡ table_bytes) × (sound_book book.now ≡ true) }
    ensures { t.new ≡ fresh book.now }
{
    wipe(t);
    for n in 0..SEATS {
        order_next(t, book, n);
    }
}
