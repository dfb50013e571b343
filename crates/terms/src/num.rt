// Big-endian numbers of N bytes at a place.
ghost use Rattle.std.specs.Prelude.{◌≡◌, ◌+◌, ◌^◌, ◌≤◌, ◌<◌, length};
ghost use Rattle.terms.specs.Names.{num, put};

pub fn num_at<const N: usize>(t: &[u8], at: usize) -> usize
    requires few { N ≤ 8 }
    requires inside { at + N ≤ length t.now }
    ensures number { result ≡ num t.now at N }
    ensures small { result < 256 ^ N }
{
    let mut x = 0;
    for b in &t[at..at + N] {
        x = x * 256 + usize::from(*b);
    }
    x
}

pub fn put_num<const N: usize>(t: &mut [u8], at: usize, x: usize)
    requires few { N ≤ 8 }
    requires inside { at + N ≤ length t.old }
    requires small { x < 256 ^ N }
    ensures { t.new ≡ put t.old at N x }
{
    t[at..at + N].copy_from_slice(&x.to_be_bytes()[8 - N..]);
}
