// Whether there is a dot among some bytes.
ghost use Rattle.std.specs.Prelude.{◌≡◌};
ghost use Rattle.terms.specs.Names.{has_dot};

#[tactic(auto, using(terms::specs::Steps::Walk::dot_any))]
pub fn has_dot(s: &[u8]) -> bool
    ensures { result ≡ has_dot s.now }
{
    s.contains(&b'.')
}
