// The desk log of a book and of standard input, as the program desklog writes it: the start, and then turn after turn, in which
// events are given to the kernel or more of the stream is read.
#![tactic(auto)]

mod give;
pub mod run;
mod turn;
