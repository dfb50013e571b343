// Listed names: which bytes are one, the one at a place in a book, and a list of them.
ghost use Rattle.std.specs.Prelude.{◌≡◌, ◌&&◌, ◌≤◌, ◌<◌, length, eqb, MatchOption};
ghost use Rattle.terms.specs.Inner.{is_listed, sound_names, name_at, next_at, names_from, end_from};

use terms::fold::is_folded;
use terms::name::is_name;

#[tactic(auto, using(terms::specs::Steps::Listed::listed_is, std::proofs::lemmas::Bool::Decides::nat_tests))]
fn is_listed(n: &[u8]) -> bool
    ensures { result ≡ is_listed n.now }
{
    (1..=62).contains(&n.len()) && is_name(n) && is_folded(n)
}

// The name at a place, if it stands before another.
pub(crate) fn name_at(b: &[u8], at: usize, until: usize) -> Option<&[u8]>
    requires { until ≤ length b.now }
    ensures { MatchOption result (until < next_at b.now at) (λ n. (next_at b.now at ≤ until) × (n.now ≡ name_at b.now at)) }
{
    let (len, rest) = b[..until].get(at..)?.split_first()?;
    rest.get(..usize::from(*len))
}

// The names from a place on, as many as the book counts, are sound and end at another.
#[tactic(auto, using(terms::specs::Steps::Listed::chained, terms::specs::Steps::Listed::not_before))]
pub(crate) fn are_sound(b: &[u8], from: usize, count: usize, until: usize) -> bool
    requires { until ≤ length b.now }
    ensures { result ≡ (eqb (end_from b.now from count) until && sound_names (names_from b.now from count)) }
{
    let mut at = from;
    let mut last: &[u8] = b"";
    for _ in 0..count {
        let Some(n) = name_at(b, at, until) else {
            return false;
        };
        if !is_listed(n) || n <= last {
            return false;
        }
        at += 1 + n.len();
        last = n;
    }
    at == until
}
