// What is said to whoever asks for --help: the program's use, in a screenful.

pub const HELP: &[u8] = b"desklog: what the kernel makes of a recording, line by line

use: desklog < EVENTS > LOG
     desklog --version

Reads the order book from the file book.bin in the working directory, then events
end to end from standard input until it ends, and writes to standard output

  S NUMBER                            the start was refused; nothing else is read
  E N NUMBER ACTIONS                  event N, from 1: its number and action count
  A PARTY ID TAG SIZE PAYLOAD         an action of the event above; hex, or -

An event is a frame: party (1 byte), id (4), tag (1), size (4), payload; numbers are
big-endian. A frame that the end of the input cuts short, or a head whose size is
over 4096, is the last event. NUMBER is 0 for done, else why it was refused:

  3 malformed frame                   7 suffix not acceptable
  4 seat, tab or process not live     8 ten tabs are live
  5 key code without a meaning        9 the seat has opened 65535 tabs
  6 unsound order book               10 no such tab waits for this

A missing or unreadable book.bin is read as empty; an empty book, and one of more than
32768 bytes, is unsound. Standard error says why a start was refused, and what could not
be read or written.
";
