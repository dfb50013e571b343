// Updates of a table as a script writes them, each made only if nothing stands against it.
#![tactic(auto)]

pub mod change;
pub mod seat;
pub mod shape;
pub mod update;
pub mod why;
