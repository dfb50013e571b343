// The program for support: book.bin and hosts in, and for each host a line with its suffix under the book.
#![tactic(auto)]

mod answer;
mod cut;
mod help;
mod host;
mod run;
mod turn;

use reader::argument::answered;
use reader::book::{read_book, say_unsound};
use reader::room::zeros;

fn main(rt: HostRuntime) {
    let who = b"asksuffix";
    if answered(&rt, who, help::HELP) {
        return;
    }
    // a byte more than a book may have, so that one too long is seen to be
    let mut book = zeros::<32769>();
    // twice what the longest host takes, so that a read brings much even where one is held in part
    let mut buf = zeros::<131072>();
    let mut out = zeros::<131>();
    let n = read_book(&rt, &mut book, who);
    if !names::book::is_sound(&book[..n]) {
        say_unsound(&rt, &book[..n], who);
    }
    run::run(&rt, &mut buf, &book[..n], &mut out, who);
}
