// What a program is asked by its arguments: there may be one, --help or --version.
use crate::out::put_out;
use crate::say::say;
use crate::version::put_version;
use std::env::FillError;
use std::rt::Env;

// There is an argument at this place.
fn is_argument(rt: &impl Env, place: usize) -> bool {
    let mut word = [0u8; 1];
    !matches!(rt.arg(place, &mut word), Err(FillError::NotPresent))
}

// Whether there was an argument, which is all that is answered then; `help` explains the program's use.
pub fn answered(rt: &(impl Print + Eprint + Env), who: &[u8], help: &[u8]) -> bool {
    if !is_argument(rt, 1) {
        return false;
    }
    let alone = !is_argument(rt, 2);
    let mut word = [0u8; 16];
    let n = rt.arg(1, &mut word).unwrap_or(0);
    match &word[..n] {
        b"--help" if alone => {
            let _ = put_out(rt, help, who);
        }
        b"--version" if alone => put_version(rt, who),
        _ => say(
            rt,
            who,
            b"takes one argument at most: --help explains its use, --version tells its version",
        ),
    }
    true
}
