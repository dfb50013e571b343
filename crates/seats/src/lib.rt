// The rules of a seat: its keys, its mouse, its open.
#![tactic(auto)]

pub mod keys;
pub mod open;
