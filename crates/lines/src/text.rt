// Text over a room from a place on: numbers in decimal, bytes in lower-case hex.
ghost use Rattle.std.specs.Prelude.{◌≡◌, [], ◌∷◌, ◌+◌, ◌*◌, ◌≤◌, ◌<◌, length};
ghost use Rattle.logs.specs.Log.{digits, decimal, hex_digit, hex};
ghost use Rattle.rules.specs.Inner.{Wrote};

// One byte; the place after it is given.
#[tactic(auto, using(rules::proofs::Laws::Wrote::wrote_byte))]
pub fn put(out: &mut [u8], at: usize, x: u8) -> usize
    requires { at < length out.old }
    ensures { Wrote out.old at (x ∷ []) out.new result }
{
    out[at] = x;
    at + 1
}

// A number in at most w digits.
fn put_digits(out: &mut [u8], at: usize, n: u64, w: usize) -> usize
    requires { at + w ≤ length out.old }
    ensures { Wrote out.old at (digits w n) out.new result }
{
    if w == 0 {
        return at;
    }
    if n < 10 {
        return put(out, at, b'0' + n as u8);
    }
    let next = put_digits(out, at, n / 10, w - 1);
    put(out, next, b'0' + (n % 10) as u8)
}

pub fn put_decimal(out: &mut [u8], at: usize, n: u64) -> usize
    requires { at + 20 ≤ length out.old }
    ensures { Wrote out.old at (decimal n) out.new result }
{
    put_digits(out, at, n, 20)
}

#[tactic(auto, using(logs::specs::Laws::Hex::hex_figure, logs::specs::Laws::Hex::hex_letter))]
fn hex_digit(d: u8) -> u8
    requires { d < 16 }
    ensures { result ≡ hex_digit d }
{
    match d {
        0..=9 => b'0' + d,
        _ => b'a' - 10 + d,
    }
}

pub fn put_hex(out: &mut [u8], at: usize, x: &[u8]) -> usize
    requires { at + 2 * length x.now ≤ length out.old }
    ensures { Wrote out.old at (hex x.now) out.new result }
{
    let mut to = at;
    for b in x {
        to = put(out, to, hex_digit(b / 16));
        to = put(out, to, hex_digit(b % 16));
    }
    to
}
