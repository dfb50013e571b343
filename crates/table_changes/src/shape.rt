// The commands, by their shapes.
use fields::mark::Mark;
use runs::parts::word;
use runs::shape::{Kind, Shape};

// What is asked of a table.
#[derive(Clone, Copy)]
pub enum Question {
    Sound,
    Cut,
    Show,
    Tab,
    Process,
    With,
    Row,
    Slot,
    Count,
    Owner,
    Name,
}

// What is asked for on a seat.
#[derive(Clone, Copy)]
pub enum Update {
    Open,
    Pick,
    Close,
    Mark,
    Unmark,
}

#[derive(Clone, Copy)]
pub enum Command {
    Ask(Question),
    Keep,
    Back,
    Fresh,
    Poke,
    Change(Update),
}

pub const SHAPES: [Shape<Command>; 20] = [
    ("sound", &[], Command::Ask(Question::Sound)),
    ("cut", &[Kind::Number], Command::Ask(Question::Cut)),
    (
        "show",
        &[Kind::Number, Kind::Number],
        Command::Ask(Question::Show),
    ),
    ("tab", &[Kind::Number], Command::Ask(Question::Tab)),
    ("process", &[Kind::Number], Command::Ask(Question::Process)),
    (
        "with",
        &[Kind::Number, Kind::Word],
        Command::Ask(Question::With),
    ),
    ("row", &[], Command::Ask(Question::Row)),
    ("slot", &[Kind::Number], Command::Ask(Question::Slot)),
    ("count", &[Kind::Number], Command::Ask(Question::Count)),
    ("owner", &[Kind::Number], Command::Ask(Question::Owner)),
    ("name", &[Kind::Number], Command::Ask(Question::Name)),
    ("keep", &[], Command::Keep),
    ("back", &[], Command::Back),
    ("fresh", &[Kind::Hex], Command::Fresh),
    ("poke", &[Kind::Number, Kind::Hex], Command::Poke),
    (
        "open",
        &[Kind::Number, Kind::Word],
        Command::Change(Update::Open),
    ),
    (
        "pick",
        &[Kind::Number, Kind::Number],
        Command::Change(Update::Pick),
    ),
    ("close", &[Kind::Number], Command::Change(Update::Close)),
    (
        "mark",
        &[Kind::Number, Kind::Number, Kind::Mark],
        Command::Change(Update::Mark),
    ),
    (
        "unmark",
        &[Kind::Number, Kind::Number, Kind::Mark],
        Command::Change(Update::Unmark),
    ),
];

// The mark that word k of a line is.
pub fn mark_at(l: &[u8], k: usize) -> Mark {
    match word(l, k) {
        b"cookie" => Mark::Cookie,
        _ => Mark::Document,
    }
}
