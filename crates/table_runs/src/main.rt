// The boundaries of the table layer, run: a script of commands on standard input, and what came of each.
#![tactic(auto)]

mod ask;
mod command;
mod poke;

fn main(rt: HostRuntime) {
    let mut t = [0u8; 6152];
    let mut kept = [0u8; 6152];
    runs::script::run(&rt, |l| command::obey(&rt, &mut t, &mut kept, l));
}
