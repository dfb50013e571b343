// The fold to lower case, of a byte and of a name.
ghost use Rattle.std.specs.Prelude.{◌≡◌};
ghost use Rattle.terms.specs.Names.{lower, is_folded, same};

#[tactic(auto, using(crate::specs::Steps::Fold::lowered))]
pub fn fold(x: u8) -> u8
    ensures { result ≡ lower x }
{
    x.to_ascii_lowercase()
}

pub fn is_folded(s: &[u8]) -> bool
    ensures { result ≡ is_folded s.now }
{
    s.iter().all(|x| fold(*x) == *x)
}

// Equal, once folded.
pub fn is_same(s: &[u8], t: &[u8]) -> bool
    ensures { result ≡ same s.now t.now }
{
    s.eq_ignore_ascii_case(t)
}
