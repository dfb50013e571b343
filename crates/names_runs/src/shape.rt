// The commands and the questions, by their shapes.
use runs::shape::{Kind, Shape};

// What is asked of the bytes of a question, and of the bytes beside them.
#[derive(Clone, Copy)]
pub enum Question {
    Name,
    Dot,
    Folded,
    Under,
    Fold,
    Into,
    Seat,
    Owner,
    Suffix,
    Sound,
}

#[derive(Clone, Copy)]
pub enum Command {
    With,
    Poke,
    Names,
    Ask(Question),
}

pub const SHAPES: [Shape<Command>; 13] = [
    ("with", &[Kind::Pieces], Command::With),
    ("poke", &[Kind::Number, Kind::Pieces], Command::Poke),
    ("names", &[], Command::Names),
    ("name", &[Kind::Pieces], Command::Ask(Question::Name)),
    ("dot", &[Kind::Pieces], Command::Ask(Question::Dot)),
    ("folded", &[Kind::Pieces], Command::Ask(Question::Folded)),
    ("under", &[Kind::Pieces], Command::Ask(Question::Under)),
    ("fold", &[Kind::Pieces], Command::Ask(Question::Fold)),
    ("into", &[Kind::Pieces], Command::Ask(Question::Into)),
    ("seat", &[Kind::Pieces], Command::Ask(Question::Seat)),
    ("owner", &[Kind::Pieces], Command::Ask(Question::Owner)),
    (
        "suffix",
        &[Kind::Number, Kind::Pieces],
        Command::Ask(Question::Suffix),
    ),
    ("sound", &[], Command::Ask(Question::Sound)),
];
