// What a program writes to standard output.
use crate::say::say_failed;
use std::io;

// All of a text. Where standard output takes no more, standard error is told why.
pub fn put_out(rt: &(impl Print + Eprint), text: &[u8], who: &[u8]) -> io::Result<()> {
    rt.write_all(text).inspect_err(|why| say_failed(
        rt,
        who,
        b"standard output cannot be written",
        why,
    ))
}
