// The names of a book about the longest length. Each is its length, 62, and its number in three letters; the rest of it is
// there already.
ghost use Rattle.std.specs.Prelude.{◌≡◌, ◌+◌, ◌%◌};

use runs::put;

fn letter(k: usize) -> u8
    ensures { result ≡ 97 + k % 26 }
{
    b'a' + (k % 26) as u8
}

pub fn put_names(to: &mut [u8]) {
    for k in 0..519 {
        put(
            to,
            63 * k,
            &[62, letter(k / 676), letter(k / 26), letter(k)],
        );
    }
}
