// The rule sheet. There is no code here but the types in which an event and an answer stand in memory, and the number of a
// refusal; the rules are specs/, and what is promised of them is proofs/Promises.
#![tactic(auto)]

pub mod event;
pub mod verdict;
