// The kernel between hosted desks, their tabs and their cookie processes: start and step, the only two functions that leave it.
// C has them through kernel_c. The memory lent to one call does not overlap; nothing is kept between calls.
#![tactic(auto)]

ghost use Rattle.std.specs.Prelude.{length};
ghost use Rattle.rules.specs.Sheet.{step_of, start_of, Stepped, Started};
ghost use Rattle.rules.specs.Inner.{Decided};

use events::read;
use fields::layout::is_long;
use frames::answer::{counts, done, pack, pack_given};
use names::book::is_sound;
use rules::verdict::{Done, Refusal};
use senders::serve;
use soundness::sound;
use table::fresh::fresh;

const ROOM: usize = 4106;

// A book into a table, whatever the table held.
pub fn stewlattice_start(table: &mut [u8], book: &[u8]) -> u64
    ensures { Started (start_of table.old book.now) table.new result }
{
    if !is_long(table) {
        return pack_given(Err(Refusal::BadTable));
    }
    if !is_sound(book) {
        return pack_given(Err(Refusal::BadBook));
    }
    fresh(table, book);
    pack_given(done(0, 0))
}

// Refusals 1 to 3, and else what the event's rule decides.
fn decide(table: &mut [u8], book: &[u8], event: &[u8], out: &mut [u8]) -> Result<Done, Refusal>
    ensures { Decided (step_of (length out.old) table.old book.now event.now) out.old table.new out.new result }
{
    let short = out.len() < ROOM;
    if short {
        return Err(Refusal::ShortRoom);
    }
    if !sound(table) {
        return Err(Refusal::BadTable);
    }
    let e = read(event).ok_or(Refusal::BadFrame)?;
    serve(table, book, event, out, e)
}

// One event: for any bytes, what the rule sheet gives.
pub fn stewlattice_step(table: &mut [u8], book: &[u8], event: &[u8], out: &mut [u8]) -> u64
    ensures { Stepped (step_of (length out.old) table.old book.now event.now) out.old table.new out.new result }
{
    let (number, actions, written) = counts(decide(table, book, event, out));
    pack(number, actions, written)
}
