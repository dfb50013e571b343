// Events of a buffered stream, given to the kernel one after another.
#![tactic(auto)]

pub mod serve;
