// Bytes written into the output room. Every byte that a step writes there is written by the loop of `put_made`.
ghost use Rattle.std.specs.Prelude.{ℕ, ◌≡◌, ◌+◌, ◌≤◌, ◌<◌, length, map};
ghost use Rattle.terms.specs.Names.{folded};
ghost use Rattle.frames.specs.Action.{party_of, tag_of};
ghost use Rattle.rules.specs.Sheet.{head};
ghost use Rattle.rules.specs.Inner.{Put};

use crate::action::Action;
use terms::fold::fold;

// The bytes of x from a place on, each as it is made; the place after them is given. It writes byte by byte, so that the archive for
// C needs no function that copies.
fn put_made<F: Fn(u8) -> u8>(out: &mut [u8], at: usize, x: &[u8], make: F) -> usize
    requires { (at + length x.now ≤ length out.old) × ((b : ℕ) → F.pre make b) }
    ensures { (meant : ℕ → ℕ) → ((b r : ℕ) → F.post make b r → r ≡ meant b) → Put out.old at (map meant x.now) out.new result }
{
    for j in 0..x.len() {
        out[at + j] = make(x[j]);
    }
    at + x.len()
}

// The bytes of x as they are.
pub fn put(out: &mut [u8], at: usize, x: &[u8]) -> usize
    requires { at + length x.now ≤ length out.old }
    ensures { Put out.old at x.now out.new result }
{
    put_made(out, at, x, |b| b)
}

// The same, folded.
pub fn put_folded(out: &mut [u8], at: usize, x: &[u8]) -> usize
    requires { at + length x.now ≤ length out.old }
    ensures { Put out.old at (folded x.now) out.new result }
{
    put_made(out, at, x, fold)
}

// The ten bytes before a payload.
pub fn head_of(action: Action, id: usize, size: usize) -> [u8; 10]
    requires { (id < 4294967296) × (size < 4294967296) }
    ensures { result ≡ head (party_of action) id (tag_of action) size }
{
    let i = (id as u32).to_be_bytes();
    let n = (size as u32).to_be_bytes();
    [
        action.party(),
        i[0],
        i[1],
        i[2],
        i[3],
        action.tag(),
        n[0],
        n[1],
        n[2],
        n[3],
    ]
}
