// The line that answers a host.
ghost use Rattle.std.specs.Prelude.{◌≡◌, ◌≤◌, length};
ghost use Rattle.terms.specs.Names.{suffix_of};
ghost use Rattle.rules.specs.Inner.{Wrote};
ghost use Rattle.asksuffix.specs.Rule.Answers.{most_text, answer_line};

use lines::line::put_payload;
use lines::text::{put, put_decimal};

// The number and the part of an answer: 0 and the suffix, or the refusal's number and nothing.
fn told<'h>(host: &'h [u8], book: &[u8]) -> (u8, &'h [u8])
    ensures says { result.0 ≡ (suffix_of host.now book.now).why }
    ensures gives { result.1.now ≡ (suffix_of host.now book.now).part }
{
    match names::ask(host, book) {
        Ok(part) => (0, part),
        Err(why) => (u8::from(why), b""),
    }
}

// Over the front of the room; how long it is is given.
pub fn put_answer(out: &mut [u8], host: &[u8], book: &[u8]) -> usize
    requires { most_text ≤ length out.old }
    ensures { Wrote out.old 0 (answer_line book.now host.now) out.new result }
{
    let (why, part) = told(host, book);
    let a = put_decimal(out, 0, u64::from(why));
    let b = put_payload(out, a, part);
    put(out, b, b'\n')
}
