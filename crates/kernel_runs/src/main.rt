// The kernel's two calls, run: a script of commands on standard input, and what came of each.
#![tactic(auto)]

mod command;
mod log;

use kernel_calls::call::Memory;

fn main(rt: HostRuntime) {
    let mut memory = Memory::new();
    let mut events = 0;
    runs::script::run(&rt, |l| events = command::obey(&rt, &mut memory, events, l));
}
