// The commands that ask about the table, and the answer to each.
ghost use Rattle.std.specs.Prelude.{◌≡◌, length};
ghost use Rattle.fields.specs.Table.{table_bytes};

use crate::poke::show;
use fields::place::Place;
use runs::number::number_at;
use runs::parts::word;
use runs::{put, say};
use table_changes::seat;
use table_changes::shape::Question;

// Whether the first n bytes of the table would be sound, or all of it and a zero byte more.
fn cut(rt: &impl Print, t: &[u8], l: &[u8], n: usize) {
    let mut room = [0u8; 6153];
    put(&mut room, 0, t);
    if n <= room.len() {
        say::text(rt, l);
        say::test(rt, b" sound", soundness::sound(&room[..n]));
    } else {
        say::bad(rt, l);
    }
}

fn say_place(rt: &impl Print, p: Option<Place>, label: &[u8]) {
    match p {
        Some(Place { seat, slot }) => say::shown(rt, label, format_args!("{seat} {slot}")),
        None => say::told(rt, label, b"nowhere"),
    }
}

fn with(rt: &impl Print, t: &[u8], l: &[u8], owner: usize)
    requires { length t.now ≡ table_bytes }
{
    match u8::try_from(owner) {
        Ok(o) => say::shown(
            rt,
            word(l, 0),
            table::find::process_with(t, o, word(l, 2)).unwrap_or(0),
        ),
        Err(_) => say::bad(rt, l),
    }
}

#[tactic(auto, using(fields::specs::Steps::Layout::table_bytes_lem))]
pub fn ask(rt: &impl Print, t: &[u8; 6152], l: &[u8], question: Question) {
    let label = word(l, 0);
    let n = number_at(l, 1);
    match question {
        Question::Sound => say::test(rt, label, soundness::sound(t)),
        Question::Cut => cut(rt, t, l, n),
        Question::Show => show(rt, t, l, n, number_at(l, 2)),
        Question::Tab => say_place(rt, table::find::tab_of(t, n), label),
        Question::Process => say::shown(rt, label, table::find::process_of(t, n).unwrap_or(0)),
        Question::With => with(rt, t, l, n),
        Question::Row => say::shown(rt, label, table::find::free_process(t).unwrap_or(0)),
        Question::Slot => seat::slot(rt, t, n, label),
        Question::Count => seat::count(rt, t, n, label),
        Question::Owner => seat::owner(rt, t, n, label),
        Question::Name => seat::name(rt, t, n, label),
    }
}
