// The name rule.
ghost use Rattle.std.specs.Prelude.{◌≡◌, Some};
ghost use Rattle.terms.specs.Names.{is_name};
ghost use Rattle.terms.specs.Inner.{fresh, walk};

use crate::walk::{Class, Label};

// The last label of some bytes, if a name begins with them.
#[tactic(auto, using(crate::specs::Steps::Walk::walking))]
fn walk(s: &[u8]) -> Option<Label>
    ensures { result ≡ walk (Some fresh) s.now }
{
    let mut l = Label::fresh();
    for x in s {
        l = l.next(Class::from(*x))?;
    }
    Some(l)
}

#[tactic(auto, using(crate::specs::Steps::Walk::name_is, std::proofs::lemmas::Bool::Decides::nat_tests))]
pub fn is_name(s: &[u8]) -> bool
    ensures { result ≡ is_name s.now }
{
    (1..=253).contains(&s.len()) && walk(s).is_some_and(|l| l.is_whole() && !l.digits)
}
