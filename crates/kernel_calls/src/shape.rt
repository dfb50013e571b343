// The commands, by their shapes.
use crate::frame::Event;
use runs::shape::{Kind, Shape};

// A call of the kernel.
#[derive(Clone, Copy)]
pub enum Call {
    Start,
    Step(Event),
}

#[derive(Clone, Copy)]
pub enum Command {
    Table,
    Room,
    Book,
    Poke,
    Rounds,
    Ask(Call),
}

pub const SHAPES: [Shape<Command>; 8] = [
    ("start", &[], Command::Ask(Call::Start)),
    ("table", &[Kind::Number], Command::Table),
    ("room", &[Kind::Number], Command::Room),
    ("book", &[Kind::Pieces], Command::Book),
    ("poke", &[Kind::Number, Kind::Pieces], Command::Poke),
    (
        "rounds",
        &[Kind::Number, Kind::Number, Kind::Pieces],
        Command::Rounds,
    ),
    ("raw", &[Kind::Pieces], Command::Ask(Call::Step(Event::Raw))),
    (
        "event",
        &[Kind::Number, Kind::Number, Kind::Number, Kind::Pieces],
        Command::Ask(Call::Step(Event::Framed)),
    ),
];
