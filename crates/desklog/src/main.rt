// The desk log program: book.bin and a stream of events in, a line for each event and each action out.
#![tactic(auto)]

mod help;

use logging::run::log;
use reader::argument::answered;
use reader::book::read_book;
use reader::room::zeros;

fn main(rt: HostRuntime) {
    let who = b"desklog";
    if answered(&rt, who, help::HELP) {
        return;
    }
    // a byte more than a book may have, so that one too long is seen to be
    let mut book = zeros::<32769>();
    let mut table = zeros::<6152>();
    // what a read can bring, and room for the text of a turn
    let mut buf = zeros::<65536>();
    let mut out = zeros::<524288>();
    let n = read_book(&rt, &mut book, who);
    log(&rt, &mut buf, &mut table, &book[..n], &mut out, who);
}
