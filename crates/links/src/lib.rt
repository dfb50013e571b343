// A tab and its process row: the fields that are written when the one is hung on the other and taken off, when a process row is
// made and cleared.
#![tactic(auto)]

pub mod hang;
