// What the rules ask of a sound table: look-ups, the map of occupied slots, and the updates, each of which keeps it sound. Whether
// a table is sound is asked of the crate soundness.
#![tactic(auto)]

pub mod close;
pub mod find;
pub mod fresh;
pub mod mark;
pub mod open;
pub mod slots;
