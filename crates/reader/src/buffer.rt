// The buffer: its unread rest is moved to the front, and a read goes behind it.
ghost use Rattle.std.specs.Prelude.{◌≡◌, ◌+◌, ◌-◌, ◌≤◌, length, take, drop};

use crate::say::say_failed;
use std::io::Read;

// Moves the bytes from place up to have to the front.
pub fn shift(buf: &mut [u8], place: usize, have: usize)
    requires { (place ≤ have) × (have ≤ length buf.old) }
    ensures { take (have - place) buf.new ≡ take (have - place) (drop place buf.old) }
{
    buf.copy_within(place..have, 0);
}

// Reads once behind the first bytes, and gives how many came: none at the end of the stream, or where the read fails, which
// standard error is told.
pub fn fill(rt: &(impl Input + Eprint), buf: &mut [u8], have: usize, who: &[u8]) -> usize
    requires { have ≤ length buf.old }
    ensures { (have + result ≤ length buf.old) × (take have buf.new ≡ take have buf.old) }
{
    rt.reader()
        .read(&mut buf[have..])
        .inspect_err(|why| say_failed(rt, who, b"standard input cannot be read", why))
        .unwrap_or(0)
}
