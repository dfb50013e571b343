// A step's answer: what it gave, or why it was refused.
ghost use Rattle.std.specs.Prelude.{◌≡◌};
ghost use Rattle.rules.specs.Rule.Refusal.{number_of};

// How many actions were given, and how many bytes they have.
#[derive(Clone, Copy, Debug, PartialEq, Eq)]
pub struct Done {
    pub actions: u8,
    pub written: u16,
}

// Refusals, in the order of document 01's list, whose numbers they have, under the names of the header.
#[derive(Clone, Copy, Debug, PartialEq, Eq)]
pub enum Refusal {
    ShortRoom = 1,
    BadTable,
    BadFrame,
    NoSender,
    BadKey,
    BadBook,
    BadSuffix,
    FullSeat,
    SpentSeat,
    NotAwaited,
}

impl From<Refusal> for u8 {
    ghost from_gives = { λ why n. n ≡ number_of why };

    fn from(why: Refusal) -> u8 {
        why as u8
    }
}
