// What the programs that read an order book and a stream share: book.bin, and standard input, a buffer at a time; standard output;
// what they say to a person; the arguments.
#![tactic(auto)]

pub mod argument;
pub mod book;
mod buffer;
pub mod front;
pub mod out;
pub mod place;
pub mod room;
pub mod say;
mod version;
