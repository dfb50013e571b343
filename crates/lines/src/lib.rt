// The text of the desk log: numbers, hex, the lines of an event and its actions.
#![tactic(auto)]

pub mod line;
pub mod text;
