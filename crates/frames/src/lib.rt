// Actions as frames: whom they are for, what a rule sees of a tab, a frame put into the output room, the answer.
#![tactic(auto)]

pub mod action;
pub mod answer;
pub mod desk;
pub mod put;
pub mod send;
