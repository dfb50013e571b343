// The commands that ask for an update of the table, and what it changed or why it was refused.
use crate::shape::Update;
use crate::update;
use runs::number::number_at;
use runs::parts::word;
use runs::{changes, say};

pub fn fresh(rt: &impl Print, t: &mut [u8; 6152], l: &[u8]) {
    let old = *t;
    let number = match update::fresh(t, word(l, 1)) {
        Ok(()) => 0,
        Err(_) => 6,
    };
    say::shown(rt, word(l, 0), number);
    changes::say_count(rt, &old, t);
}

pub fn run(rt: &impl Print, t: &mut [u8; 6152], l: &[u8], update: Update) {
    let old = *t;
    match update::on_seat(t, number_at(l, 1), l, update) {
        Ok(()) => {
            say::line(rt, l);
            changes::say_each(rt, &old, t);
        }
        Err(why) => {
            say::text(rt, word(l, 0));
            let _ = println!(rt; " refused {why}");
        }
    }
}
