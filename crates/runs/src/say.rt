// What is written to standard output. What it does not take is lost.
use std::fmt::Display;

// Bytes as they are.
pub fn text(rt: &impl Print, s: &[u8]) {
    let _ = rt.write_all(s);
}

pub fn line(rt: &impl Print, s: &[u8]) {
    text(rt, s);
    let _ = println!(rt; "");
}

// A label and a word.
pub fn told(rt: &impl Print, label: &[u8], word: &[u8]) {
    text(rt, label);
    text(rt, b" ");
    line(rt, word);
}

// A label, and what is shown under it.
pub fn shown(rt: &impl Print, label: &[u8], what: impl Display + Drop) {
    text(rt, label);
    let _ = println!(rt; " {what}");
}

pub fn test(rt: &impl Print, label: &[u8], holds: bool) {
    shown(rt, label, if holds { "yes" } else { "no" });
}

// A line of the script that is no command.
pub fn bad(rt: &impl Print, l: &[u8]) {
    told(rt, b"?", l);
}
