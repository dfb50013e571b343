// A name read from byte to byte: what is known of the label so far, and what a byte makes of it.
ghost use Rattle.std.specs.Prelude.{◌≡◌};
ghost use Rattle.terms.specs.Inner.{class_of, fresh, grown, is_whole, next};

// What a byte is to a name.
#[derive(Clone, Copy)]
pub(crate) enum Class {
    Dot,
    Hyphen,
    Digit,
    Letter,
    Other,
}

impl From<u8> for Class {
    ghost from_gives = { λ x c. c ≡ class_of x };

    #[tactic(auto, using(crate::specs::Steps::Walk::class_is, std::proofs::lemmas::Bool::Decides::nat_tests))]
    fn from(x: u8) -> Class {
        match x {
            b'.' => Class::Dot,
            b'-' => Class::Hyphen,
            _ if x.is_ascii_digit() => Class::Digit,
            _ if x.is_ascii_alphabetic() => Class::Letter,
            _ => Class::Other,
        }
    }
}

// The bytes since the last dot: how many, whether the last is a hyphen, whether all are digits.
#[derive(Clone, Copy)]
pub(crate) struct Label {
    pub(crate) len: usize,
    pub(crate) hyphen: bool,
    pub(crate) digits: bool,
}

impl Label {
    // Before its first byte.
    #[tactic(auto, using(crate::specs::Steps::Walk::fresh_is))]
    pub(crate) fn fresh() -> Label
        ensures { result ≡ fresh }
    {
        Label {
            len: 0,
            hyphen: false,
            digits: true,
        }
    }

    // One byte more, if there is room for it.
    #[tactic(auto, using(crate::specs::Steps::Walk::grown_is, std::proofs::lemmas::Bool::Decides::nat_tests))]
    fn grown(self, hyphen: bool, digits: bool) -> Option<Label>
        ensures { result ≡ grown self hyphen digits }
    {
        (self.len < 63).then(|| Label {
            len: self.len + 1,
            hyphen,
            digits,
        })
    }

    // It may end here.
    #[tactic(auto, using(crate::specs::Steps::Walk::whole_is, std::proofs::lemmas::Bool::Decides::nat_tests))]
    pub(crate) fn is_whole(self) -> bool
        ensures { result ≡ is_whole self }
    {
        0 < self.len && !self.hyphen
    }

    // The label after a byte, if a name goes on with that.
    #[tactic(auto, using(crate::specs::Steps::Walk::next_is, std::proofs::lemmas::Bool::Decides::nat_tests))]
    pub(crate) fn next(self, c: Class) -> Option<Label>
        ensures { result ≡ next self c }
    {
        match c {
            Class::Dot if self.is_whole() => Some(Label::fresh()),
            Class::Hyphen if 0 < self.len => self.grown(true, false),
            Class::Digit => self.grown(false, self.digits),
            Class::Letter => self.grown(false, false),
            _ => None,
        }
    }
}
