// The rules of a tab: what it asks for, and what a process or the network sends it.
#![tactic(auto)]

mod allow;
pub mod deliver;
pub mod tab;
