// What is said of a call: the lines of the desk log, and a line on the memory that was lent.
ghost use Rattle.std.specs.Prelude.{◌≤◌, length, IfSome};

use frames::answer::{actions_in, bytes_in, number_in};
use kernel_calls::call::Outcome;
use runs::hexed::Hexed;
use runs::say;
use std::fmt;
use terms::num::num_at;

// A frame that was written.
#[derive(Clone, Copy)]
struct Action<'s> {
    party: u8,
    id: usize,
    tag: u8,
    payload: &'s [u8],
}

impl fmt::Display for Action<'_> {
    fn fmt<W: fmt::Write>(&self, f: &mut fmt::Formatter<W>) -> fmt::Result {
        let (party, id, tag, size) = (self.party, self.id, self.tag, self.payload.len());
        write!(f, "A {party} {id} {tag} {size} ")?;
        if size == 0 {
            return f.write_str("-");
        }
        Hexed(self.payload).fmt(f)
    }
}

// The first frame of some bytes, and the bytes after it.
fn first_action(s: &[u8]) -> Option<(Action<'_>, &[u8])>
    ensures { IfSome result (λ p. length p.1.now ≤ length s.now) }
{
    let (head, rest) = s.split_at_checked(10)?;
    let (payload, after) = rest.split_at_checked(num_at::<4>(head, 6))?;
    let action = Action {
        party: head[0],
        id: num_at::<4>(head, 1),
        tag: head[5],
        payload,
    };
    Some((action, after))
}

// So many frames, and how many bytes they have; bytes that hold no whole frame are all taken for one.
fn say_actions(rt: &impl Print, s: &[u8], count: u64) -> usize
    ensures { result ≤ length s.now }
{
    let mut rest = s;
    for _ in 0..count {
        rest = match first_action(rest) {
            Some((action, after)) => {
                let _ = rt.println(action);
                after
            }
            None => {
                let _ = println!(rt; "A ?");
                &[]
            }
        };
    }
    s.len() - rest.len()
}

// The bytes written, and the bytes of the table that changed; of a refusal, whether table and room are as they were.
fn say_memory(rt: &impl Print, o: Outcome) {
    let bytes = bytes_in(o.answer);
    let _ = print!(rt; "  {bytes} bytes");
    if o.is_served() {
        let changed = o.changed;
        let _ = print!(rt; ", table {changed}");
    } else if o.is_kept() {
        let _ = print!(rt; ", kept");
    }
    let _ = println!(rt; "{}", if o.is_kept() { "" } else { ", CHANGED" });
}

pub fn say_start(rt: &impl Print, o: Outcome) {
    let number = number_in(o.answer);
    let _ = println!(rt; "S {number}");
    say_memory(rt, o);
}

pub fn say_step(rt: &impl Print, n: usize, o: Outcome, room: &[u8]) {
    let number = number_in(o.answer);
    let actions = actions_in(o.answer);
    let _ = println!(rt; "E {n} {number} {actions}");
    if say_actions(rt, room, actions) != bytes_in(o.answer) {
        say::bad(rt, b"other bytes than the actions have");
    }
    say_memory(rt, o);
}
