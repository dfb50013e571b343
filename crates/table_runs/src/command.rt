// What a line of the script asks, of one table and the one kept.
use crate::ask::ask;
use crate::poke::poke;
use runs::script::command_in;
use table_changes::change;
use table_changes::shape::{Command, SHAPES};

pub fn obey(rt: &impl Print, t: &mut [u8; 6152], kept: &mut [u8; 6152], l: &[u8]) {
    let Some(command) = command_in(rt, l, &SHAPES) else {
        return;
    };
    match command {
        Command::Ask(question) => ask(rt, t, l, question),
        Command::Keep => *kept = *t,
        Command::Back => *t = *kept,
        Command::Fresh => change::fresh(rt, t, l),
        Command::Poke => poke(rt, t, l),
        Command::Change(update) => change::run(rt, t, l, update),
    }
}
