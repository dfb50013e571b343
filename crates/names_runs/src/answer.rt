// The questions to the names layer, and the line with the answer to one.
ghost use Rattle.std.specs.Prelude.{◌≤◌, length};

use crate::seat;
use crate::shape::Question;
use runs::changes::byte_at;
use runs::number::number_at;
use runs::say;
use terms::fold::{fold, is_folded};

// A name folded over the first bytes of a room.
fn fold_into(to: &mut [u8], name: &[u8])
    requires { length name.now ≤ length to.old }
{
    for (letter, x) in to[..name.len()].iter_mut().zip(name) {
        *letter = fold(*x);
    }
}

// The bytes beside a name, once it is folded into them.
fn into(rt: &impl Print, to: &mut [u8], name: &[u8], label: &[u8]) {
    if to.len() < name.len() {
        say::told(rt, label, b"refused");
        return;
    }
    fold_into(to, name);
    say::told(rt, label, to);
}

// The number given back and the part of the host, or a hyphen for an empty one. The number lent holds `held` before.
fn suffix(rt: &impl Print, host: &[u8], book: &[u8], held: usize, label: &[u8]) {
    let mut why = (held % 256) as u8;
    let part = names::suffix(host, book, &mut why);
    say::text(rt, label);
    let _ = print!(rt; " {why} ");
    say::line(rt, if part.is_empty() { b"-" } else { part });
}

pub fn answer(
    rt: &impl Print,
    beside: &mut [u8],
    text: &[u8],
    q: &[u8],
    question: Question,
    label: &[u8],
) {
    let first = byte_at(text, 0);
    match question {
        Question::Name => say::test(rt, label, terms::name::is_name(text)),
        Question::Dot => say::test(rt, label, runs::dot::has_dot(text)),
        Question::Folded => say::test(rt, label, is_folded(text)),
        Question::Under => say::test(rt, label, terms::under::is_under(text, beside)),
        Question::Fold => say::shown(rt, label, fold(first)),
        Question::Into => into(rt, beside, text, label),
        Question::Seat => seat::say(rt, beside, first, label),
        Question::Owner => {
            say::text(rt, label);
            seat::say_owner(rt, first, byte_at(text, 1), byte_at(text, 2));
        }
        Question::Suffix => suffix(rt, text, beside, number_at(q, 1), label),
        Question::Sound => say::test(rt, label, names::book::is_sound(beside)),
    }
}
