// What a line of the script asks of the kernel, or lends to it.
use crate::log;
use kernel_calls::call::Memory;
use kernel_calls::shape::{Call, Command, SHAPES};
use runs::number::number_at;
use runs::pieces::put_words;
use runs::say;
use runs::script::command_in;

// The call that a line asks for, and how many events there were since the last start.
fn ask(rt: &impl Print, memory: &mut Memory, events: usize, l: &[u8], call: Call) -> usize {
    let o = memory.call(l, call);
    match call {
        Call::Start => {
            log::say_start(rt, o);
            0
        }
        Call::Step(_) => {
            let n = events.wrapping_add(1);
            log::say_step(rt, n, o, &memory.room);
            n
        }
    }
}

fn rounds(rt: &impl Print, memory: &mut Memory, events: usize, l: &[u8]) -> usize {
    let n = number_at(l, 1);
    let bad = memory.rounds(l, n);
    let _ = println!(rt; "  {n} rounds, {bad} bad");
    events.wrapping_add(n.wrapping_add(n))
}

// The line's command, and how many events there were then since the last start.
pub fn obey(rt: &impl Print, memory: &mut Memory, events: usize, l: &[u8]) -> usize {
    let Some(command) = command_in(rt, l, &SHAPES) else {
        return events;
    };
    say::line(rt, l);
    match command {
        Command::Table => memory.lent.table = number_at(l, 1),
        Command::Room => memory.lent.room = number_at(l, 1),
        Command::Book => memory.lent.book = put_words(&mut memory.book, 0, l, 1),
        Command::Poke => {
            put_words(&mut memory.table, number_at(l, 1).min(6153), l, 2);
        }
        Command::Rounds => return rounds(rt, memory, events, l),
        Command::Ask(call) => return ask(rt, memory, events, l, call),
    }
    events
}
