// The letters of a process row's room.
#![tactic(auto)]

pub mod spell;

ghost use Rattle.std.specs.Prelude.{◌≡◌, ◌||◌, ℕ, Bool, not, eqb, leb};
ghost use Rattle.terms.specs.Base.{Range};
ghost use Rattle.terms.specs.Names.{lower};
ghost use Rattle.fields.specs.Base.{each};
ghost use Rattle.fields.specs.Table.{view, letter, RowOf};
ghost use Rattle.fields.specs.Inner.{filled};

use fields::layout::{ROOM, letter, size};
use terms::fold::fold;

// Every letter after the first n passes. It looks at each of them and leaves nowhere on its way, so that it is compiled to
// instructions that look at sixteen at once.
fn is_each_after<F: Fn(usize) -> bool>(n: usize, test: F) -> bool
    requires { (j : ℕ) → Range 1 64 j → F.pre test j }
    ensures { (meant : ℕ → Bool) → ((j : ℕ) (r : Bool) → Range 1 64 j → F.post test j r → r ≡ meant j) → result ≡ each 64 (λ j. leb j n || meant j) }
{
    let mut all = true;
    for j in n..ROOM {
        all &= test(j + 1);
    }
    all
}

// The letters after the name are zero.
pub fn is_filled(t: &[u8], p: usize) -> bool
    requires { RowOf t.now p }
    ensures { result ≡ filled (view t.now) p }
{
    is_each_after(size(t, p), |j| letter(t, p, j) == 0)
}

// No letter is a capital.
pub fn are_small(t: &[u8], p: usize) -> bool
    requires { RowOf t.now p }
    ensures { result ≡ each 64 (λ j. eqb (lower (view t.now (letter p j))) (view t.now (letter p j))) }
{
    is_each_after(0, |j| {
        let x = letter(t, p, j);
        fold(x) == x
    })
}

// No letter is a dot.
pub fn are_dotless(t: &[u8], p: usize) -> bool
    requires { RowOf t.now p }
    ensures { result ≡ each 64 (λ j. not (eqb (view t.now (letter p j)) 46)) }
{
    is_each_after(0, |j| letter(t, p, j) != b'.')
}

// Two rows have the same letters.
pub fn are_same(t: &[u8], q: usize, p: usize) -> bool
    requires { (RowOf t.now q) × (RowOf t.now p) }
    ensures { result ≡ each 64 (λ j. eqb (view t.now (letter q j)) (view t.now (letter p j))) }
{
    is_each_after(0, |j| letter(t, q, j) == letter(t, p, j))
}
