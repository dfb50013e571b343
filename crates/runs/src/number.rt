// Words as decimal numbers.
ghost use Rattle.std.specs.Prelude.{◌≡◌, unwrap_or};
ghost use Rattle.runs.specs.Words.{word};
ghost use Rattle.runs.specs.Decimal.{with_digit, decimal};

use crate::parts::word;

// A number with one digit more; not beyond ten digits.
#[tactic(auto, unfolding(crate::specs::Decimal::with_digit))]
fn with_digit(n: usize, digit: u8) -> Option<usize>
    ensures { result ≡ with_digit n digit }
{
    match digit {
        b'0'..=b'9' if n <= 999999999 => Some(10 * n + usize::from(digit - b'0')),
        _ => None,
    }
}

pub fn number_of(w: &[u8]) -> Option<usize>
    ensures { result ≡ decimal w.now }
{
    if w.is_empty() {
        return None;
    }
    let mut n = 0;
    for digit in w {
        n = with_digit(n, *digit)?;
    }
    Some(n)
}

// The number that word k of a line is, or 0.
pub fn number_at(l: &[u8], k: usize) -> usize
    ensures { result ≡ unwrap_or (decimal (word l.now k)) 0 }
{
    number_of(word(l, k)).unwrap_or(0)
}
