// The front of a room, read into from whatever reads.
ghost use Rattle.std.specs.Prelude.{◌<◌, length, take, IfOk};
ghost use Rattle.std.specs.Io.KnownBytes.{Consumes, IsAtEnd};
ghost use Rattle.reader.specs.Front.{IsPrefixLen, bytes_come};

use std::io;
use std::io::Read;

// A read that failed: how much had come before it, and why it did.
#[derive(Clone, Copy)]
pub struct Broken {
    pub have: usize,
    pub why: io::Error,
}

// Reads on until the room is full or the input ends, and gives how many bytes came.
pub fn read_all<R: Read>(input: &mut R, to: &mut [u8]) -> Result<usize, Broken>
    ensures front { IsPrefixLen (bytes_come result) to.new }
    ensures bytes { Consumes (R.remaining input.old) (R.remaining input.new) (take (bytes_come result) to.new) }
    ensures end { IfOk result (λ n. n < length to.new → IsAtEnd (R.remaining input.new)) }
{
    let mut have = 0;
    while have < to.len() {
        match input.read(&mut to[have..]) {
            Ok(0) => break,
            Ok(n) => have += n,
            Err(why) => return Err(Broken { have, why }),
        }
    }
    Ok(have)
}
