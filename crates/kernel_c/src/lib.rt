// The kernel for C: start and step under the names and in the calling convention of include/stewlattice.h, a slice as a pointer and
// a length. Each calls the function of that name in kernel, and promises the same.
#![tactic(auto)]

ghost use Rattle.std.specs.Prelude.{length};
ghost use Rattle.rules.specs.Sheet.{step_of, start_of, Stepped, Started};

// A book into a table, whatever the table held.
#[unsafe(no_mangle)]
pub extern "C" fn stewlattice_start(table: &mut [u8], book: &[u8]) -> u64
    ensures { Started (start_of table.old book.now) table.new result }
{
    kernel::stewlattice_start(table, book)
}

// One event: for any bytes, what the rule sheet gives.
#[unsafe(no_mangle)]
pub extern "C" fn stewlattice_step(
    table: &mut [u8],
    book: &[u8],
    event: &[u8],
    out: &mut [u8],
) -> u64
    ensures { Stepped (step_of (length out.old) table.old book.now event.now) out.old table.new out.new result }
{
    kernel::stewlattice_step(table, book, event, out)
}
