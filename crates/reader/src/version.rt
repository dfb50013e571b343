// The version: the number that the file VERSION of the repository has. The tests of the programs hold the two together.
use crate::out::put_out;

// A line on standard output, with the program's name.
pub fn put_version(rt: &(impl Print + Eprint), who: &[u8]) {
    if put_out(rt, who, who).is_ok() {
        let _ = put_out(rt, b" 0.7.0\n", who);
    }
}
