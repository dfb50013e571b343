// What an order says, what orders say of a seat, and a seat's owner.
ghost use Rattle.std.specs.Prelude.{◌≡◌, ◌≤◌};
ghost use Rattle.terms.specs.Names.{legal_options, is_separate, owner_of};

#[derive(Clone, Copy)]
pub struct Order {
    pub seat: u8,
    pub tenant: u8,
    pub options: u8,
}

// What the orders say of a seat that is let.
#[derive(Clone, Copy, Default)]
pub struct Letting {
    pub tenant: u8,
    pub options: u8,
}

// The largest legal options.
const MOST_OPTIONS: u8 = 1;

#[tactic(auto, using(crate::specs::Steps::Order::legal_options_is, std::proofs::lemmas::Bool::Decides::nat_tests))]
pub fn are_legal_options(x: u8) -> bool
    ensures { result ≡ legal_options x }
{
    x <= MOST_OPTIONS
}

// Bit 0 of the options says separate.
#[tactic(auto, using(crate::specs::Steps::Order::separate_is, std::proofs::lemmas::Bool::Decides::nat_tests))]
pub fn is_separate(x: u8) -> bool
    ensures { result ≡ is_separate x }
{
    x % 2 == 1
}

#[tactic(auto, using(crate::specs::Steps::Order::owner_is))]
pub fn owner_of(seat: u8, tenant: u8, options: u8) -> u8
    requires { seat ≤ 8 }
    ensures { result ≡ owner_of seat tenant options }
{
    if is_separate(options) {
        100 + seat
    } else {
        tenant
    }
}
