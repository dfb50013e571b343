// What the programs share that run a layer's boundaries.
#![tactic(auto)]

pub mod changes;
pub mod dot;
pub mod hexed;
pub mod number;
pub mod parts;
pub mod pieces;
pub mod say;
pub mod script;
pub mod shape;

ghost use Rattle.std.specs.Prelude.{◌≡◌};
ghost use Rattle.std.proofs.lemmas.List.Edits.{sets};

// Writes bytes from a place on, as many as there is room for.
pub fn put(to: &mut [u8], at: usize, bytes: &[u8])
    ensures { to.new ≡ sets to.old at bytes.now }
{
    if at < to.len() {
        let n = bytes.len().min(to.len() - at);
        to[at..at + n].copy_from_slice(&bytes[..n]);
    }
}
