// The boundaries of the names layer, run: a script of questions on standard input, and a line with the answer to each.
#![tactic(auto)]

mod answer;
mod command;
mod many;
mod seat;
mod shape;

fn main(rt: HostRuntime) {
    let mut beside = [0u8; 32769];
    let mut n = 0;
    runs::script::run(&rt, |l| n = command::obey(&rt, &mut beside, n, l));
}
