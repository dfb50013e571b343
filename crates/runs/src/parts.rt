// Parts of a text: those that a byte keeps apart, as the words of a line; and so many bytes.
ghost use Rattle.std.specs.Prelude.{◌≡◌, take, drop};
ghost use Rattle.runs.specs.Words.{part, word};

// Part k; empty past the last.
pub fn part(s: &[u8], by: u8, k: usize) -> &[u8]
    ensures { result.now ≡ part by s.now k }
{
    s.split(|b| *b == by).nth(k).unwrap_or(&[])
}

pub fn word(l: &[u8], k: usize) -> &[u8]
    ensures { result.now ≡ word l.now k }
{
    part(l, b' ', k)
}

// The first n bytes, or all.
pub fn first(s: &[u8], n: usize) -> &[u8]
    ensures { result.now ≡ take n s.now }
{
    &s[..n.min(s.len())]
}

// The n bytes from a place on; fewer if they do not all lie there.
pub fn span(s: &[u8], at: usize, n: usize) -> &[u8]
    ensures { result.now ≡ take n (drop at s.now) }
{
    first(&s[at.min(s.len())..], n)
}
