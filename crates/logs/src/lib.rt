// The desk log without the system calls: where a frame of a stream ends, and how far a reader has come. What the log is stands in specs/.
#![tactic(auto)]

pub mod cursor;
pub mod frame;
