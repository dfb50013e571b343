// What is said to whoever asks for --help: the program's use, in a screenful.

pub const HELP: &[u8] = b"asksuffix: the suffix of each host under an order book, line by line

use: asksuffix < HOSTS > ANSWERS
     asksuffix --version

Reads the order book from the file book.bin in the working directory, then hosts end to
end from standard input until it ends. A host is a length of 2 bytes, big-endian, and
that many bytes, 0 to 65535, as from printf '\\0\\11www.a.com'. Each one's line is written
before the next has to come:

  NUMBER PART      the suffix, a part of the host in lower-case hex; or -

NUMBER is 0 where the host has a suffix, else why it was refused:

  6 the order book is unsound
  7 the host is malformed, nothing listed fits, no label is left before what does,
    or the suffix has more than 64 bytes

A host that the end of the input cuts short is not answered, and standard error says so.
A missing or unreadable book.bin is read as empty; an empty book, and one of more than
32768 bytes, is unsound. Standard error says why a book is unsound, and what could not
be read or written.
";
