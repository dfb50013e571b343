// What a line of the script asks. A bar stands between a question and the label of its answer.
use crate::answer::answer;
use crate::many::put_names;
use crate::shape::{Command, Question, SHAPES};
use runs::number::number_at;
use runs::parts::part;
use runs::pieces::put_words;
use runs::say;
use runs::script::is_heading;
use runs::shape::command_of;

// The bytes of a question, and what it asks of them and of the bytes beside them.
fn ask(rt: &impl Print, beside: &mut [u8], q: &[u8], question: Question, label: &[u8]) {
    let first = match question {
        Question::Suffix => 2,
        _ => 1,
    };
    let mut room = [0u8; 4096];
    let len = put_words(&mut room, 0, q, first);
    answer(rt, beside, &room[..len], q, question, label);
}

// A line of the script, and how many bytes stand beside the questions after it.
pub fn obey(rt: &impl Print, beside: &mut [u8], n: usize, l: &[u8]) -> usize {
    if is_heading(l) {
        return n;
    }
    let q = part(l, b'|', 0);
    let Some(command) = command_of(q, &SHAPES) else {
        say::bad(rt, l);
        return n;
    };
    let len = beside.len();
    match command {
        Command::With => return put_words(beside, 0, q, 1),
        Command::Poke => {
            put_words(beside, number_at(q, 1).min(len), q, 2);
        }
        Command::Names => put_names(beside),
        Command::Ask(question) => ask(rt, &mut beside[..n.min(len)], q, question, part(l, b'|', 1)),
    }
    n
}
