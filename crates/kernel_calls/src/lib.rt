// Calls of the kernel as a script writes them: the event, the memory lent, and what came of a call.
#![tactic(auto)]

pub mod call;
pub mod frame;
pub mod shape;
