// A script on standard input, obeyed line by line.
ghost use Rattle.std.specs.Prelude.{◌≡◌, ℕ, ◌<◌, IfSome, length};
ghost use Rattle.std.specs.List.{HoldsAt};
ghost use Rattle.runs.specs.Words.{word};
ghost use Rattle.std.specs.Iterator.{at_most};

use crate::say;
use crate::shape::{Shape, command_of};
use reader::front::read_all;

// The lines of a script, each without the byte that ends it. Bytes that no such byte ends are no line.
#[derive(Drop)]
struct Lines<'s>(&'s [u8]);

impl<'s> Iterator for Lines<'s> {
    type Item = &'s [u8];

    ghost remaining = { λ s. at_most (length s.0.now) };

    fn next(&mut self) -> Option<&'s [u8]> {
        let rest = self.0;
        let end = rest.iter().position(|b| *b == b'\n')?;
        self.0 = &rest[end + 1..];
        Some(&rest[..end])
    }
}

// Each line of the script in turn, as far as there is room for it; says so if it goes on past that.
pub fn run<F: FnMut(&[u8])>(rt: &(impl Input + Print), mut obey: F)
    requires { F.IsAlwaysCallable obey }
{
    let mut input = rt.reader();
    let mut script = [0; 65536];
    let n = read_all(&mut input, &mut script).unwrap_or_else(|broken| broken.have);
    for line in Lines(&script[..n]) {
        obey(line);
    }
    if matches!(read_all(&mut input, &mut [0]), Ok(1)) {
        say::bad(rt, b"script too long");
    }
}

// A heading or an empty line.
pub fn is_heading(l: &[u8]) -> bool {
    matches!(l, [] | [b'#', ..])
}

// The command that a line is, of those that have these shapes. If it is none, it is a heading, or bad, and said.
pub fn command_in<C: Copy>(rt: &impl Print, l: &[u8], shapes: &[Shape<C>]) -> Option<C>
    ensures { IfSome result (λ command. (k : ℕ) × (k < length shapes.now)
        × HoldsAt (λ s. (s.0.now ≡ word l.now 0) × (s.2 ≡ command)) shapes.now k) }
{
    if is_heading(l) {
        say::line(rt, l);
        return None;
    }
    let command = command_of(l, shapes);
    if command.is_none() {
        say::bad(rt, l);
    }
    command
}
