// The longest listed name that a host is under, and one label more.
ghost use Rattle.std.specs.Prelude.{◌≡◌, true, length};
ghost use Rattle.terms.specs.Base.{last_of, if_any};
ghost use Rattle.terms.specs.Names.{sound_book};
ghost use Rattle.terms.specs.Inner.{public_of, with_label, labels};

use crate::book::Trailer;
use crate::listed::name_at;
use terms::under::is_under;

// How many of the host's last bytes are public: those of the longest listed name that it is under. A name that is not longer
// than the match so far is not compared.
pub(crate) fn public_of(h: &[u8], b: &[u8]) -> Option<usize>
    requires { sound_book b.now ≡ true }
    ensures { result ≡ if_any (public_of b.now h.now) }
{
    let t = Trailer::of(b);
    let mut at = t.names_at;
    let mut best = None;
    for _ in 0..t.names {
        let n = name_at(b, at, b.len()).unwrap();
        if best < Some(n.len()) && is_under(h, n) {
            best = Some(n.len());
        }
        at += 1 + n.len();
    }
    best
}

// How many bytes stand after the last dot.
fn last_label(s: &[u8]) -> usize
    ensures { result ≡ length (last_of (labels s.now)) }
{
    s.iter().rev().position(|x| *x == b'.').unwrap_or(s.len())
}

// How many bytes of the host its last m take with one label more, if one is left.
#[tactic(auto, using(terms::specs::Steps::Longest::labelled))]
pub(crate) fn with_label(h: &[u8], m: usize) -> Option<usize>
    ensures { result ≡ if_any (with_label h.now m) }
{
    if m == 0 || h.len() <= m {
        return None;
    }
    let front = h.len() - (m + 1);
    Some(last_label(&h[..front]) + 1 + m)
}
