// The lines of the desk log, over a room from a place on; each function gives the place after its text.
ghost use Rattle.std.specs.Prelude.{◌+◌, ◌*◌, ◌≤◌, length};
ghost use Rattle.terms.specs.Names.{num};
ghost use Rattle.logs.specs.Log.{number, payload, event_line, action_line, start_line, action_lines};
ghost use Rattle.logs.specs.Inner.{Holds, Holding, numbers as numbers_of, lines_of};
ghost use Rattle.rules.specs.Sheet.{frame_at, frames_of, actions_in, bytes_in};
ghost use Rattle.rules.specs.Inner.{Wrote};

use crate::text::{put, put_decimal, put_hex};
use frames::answer::{actions_in, bytes_in, number_in};
use terms::num::num_at;

// A number behind its space.
fn put_number(out: &mut [u8], at: usize, n: u64) -> usize
    requires { at + 21 ≤ length out.old }
    ensures { Wrote out.old at (number n) out.new result }
{
    let next = put(out, at, b' ');
    put_decimal(out, next, n)
}

// A payload behind its space.
pub fn put_payload(out: &mut [u8], at: usize, x: &[u8]) -> usize
    requires { at + 2 + 2 * length x.now ≤ length out.old }
    ensures { Wrote out.old at (payload x.now) out.new result }
{
    let next = put(out, at, b' ');
    if x.is_empty() {
        return put(out, next, b'-');
    }
    put_hex(out, next, x)
}

fn put_numbers(out: &mut [u8], at: usize, numbers: &[u64]) -> usize
    requires { at + 21 * length numbers.now ≤ length out.old }
    ensures { Wrote out.old at (numbers_of numbers.now) out.new result }
{
    let mut to = at;
    for n in numbers {
        to = put_number(out, to, *n);
    }
    to
}

pub fn put_start(out: &mut [u8], at: usize, n: u64) -> usize
    requires { at + 23 ≤ length out.old }
    ensures { Wrote out.old at (start_line n) out.new result }
{
    let a = put(out, at, b'S');
    let b = put_number(out, a, n);
    put(out, b, b'\n')
}

fn put_event(out: &mut [u8], at: usize, n: u64, answer: u64, actions: u64) -> usize
    requires { at + 65 ≤ length out.old }
    ensures { Wrote out.old at (event_line n answer actions) out.new result }
{
    let a = put(out, at, b'E');
    let b = put_numbers(out, a, &[n, answer, actions]);
    put(out, b, b'\n')
}

// The frame at the front of s.
fn put_action(out: &mut [u8], at: usize, s: &[u8]) -> usize
    requires { (10 + num s.now 6 4 ≤ length s.now) × (at + 88 + 2 * num s.now 6 4 ≤ length out.old) }
    ensures { Wrote out.old at (action_line (frame_at s.now)) out.new result }
{
    let size = num_at::<4>(s, 6);
    let head = [
        u64::from(s[0]),
        num_at::<4>(s, 1) as u64,
        u64::from(s[5]),
        size as u64,
    ];
    let a = put(out, at, b'A');
    let b = put_numbers(out, a, &head);
    let c = put_payload(out, b, &s[10..10 + size]);
    put(out, c, b'\n')
}

// So many frames, end to end in s.
fn put_actions(out: &mut [u8], at: usize, s: &[u8], count: u64) -> usize
    requires { Holds count s.now × (at + 88 * count + 2 * length s.now ≤ length out.old) }
    ensures { Wrote out.old at (action_lines (frames_of count s.now)) out.new result }
{
    let mut to = at;
    let mut p = 0;
    for _ in 0..count {
        let part = &s[p..];
        to = put_action(out, to, part);
        p += 10 + num_at::<4>(part, 6);
    }
    to
}

// The lines of event n: `answer` is what the kernel gave back for it, and the room what it wrote there.
pub fn put_lines(out: &mut [u8], at: usize, n: u64, answer: u64, room: &[u8]) -> usize
    requires { Holding answer room.now × (at + 65 + 88 * actions_in answer + 2 * bytes_in answer ≤ length out.old) }
    ensures { Wrote out.old at (lines_of n answer room.now) out.new result }
{
    let number = number_in(answer);
    let actions = actions_in(answer);
    let bytes = bytes_in(answer);
    let to = put_event(out, at, n, number, actions);
    put_actions(out, to, &room[..bytes], actions)
}
