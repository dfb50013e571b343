// A name, folded, in the bytes of a process row.
ghost use Rattle.std.specs.Prelude.{◌≡◌, get_or};
ghost use Rattle.terms.specs.Names.{folded};
ghost use Rattle.fields.specs.Table.{RowOf};
ghost use Rattle.fields.specs.Inner.{Left, spelled};

use fields::layout::{ROOM, set_letter};
use terms::fold::fold;

// A name's byte, folded; 0 past its end.
#[tactic(auto, using(terms::specs::Laws::Fold::get_d_folded))]
fn letter_of(name: &[u8], j: usize) -> u8
    ensures { result ≡ get_or (folded name.now) j 0 }
{
    if j < name.len() { fold(name[j]) } else { 0 }
}

// Writes a name, folded, and zeros after it.
pub fn spell(t: &mut [u8], p: usize, name: &[u8])
    requires { RowOf t.old p }
    ensures { Left t.new (spelled t.old p (folded name.now) 64) }
{
    for j in 0..ROOM {
        set_letter(t, p, j + 1, letter_of(name, j));
    }
}
