// One name under another.
ghost use Rattle.std.specs.Prelude.{◌≡◌};
ghost use Rattle.terms.specs.Names.{under};

use crate::fold::is_same;

#[tactic(auto, using(crate::specs::Steps::Under::under_is, std::proofs::lemmas::Bool::Decides::nat_tests))]
pub fn is_under(h: &[u8], t: &[u8]) -> bool
    ensures { result ≡ under h.now t.now }
{
    if h.len() <= t.len() {
        return is_same(h, t);
    }
    let from = h.len() - t.len();
    h[from - 1] == b'.' && is_same(&h[from..], t)
}
