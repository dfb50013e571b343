// A step's answer, made, packed, and read out of the packed number.
ghost use Rattle.std.specs.Prelude.{◌≡◌, ◌≤◌};
ghost use Rattle.rules.specs.Sheet.{packed, number_in, actions_in, bytes_in};
ghost use Rattle.rules.specs.Inner.{Says, number_given, actions_given, written_given};

use rules::verdict::{Done, Refusal};

pub fn done(actions: u8, written: usize) -> Result<Done, Refusal>
    requires { written ≤ 65535 }
    ensures { Says 0 actions written result }
{
    let written = written as u16;
    Ok(Done { actions, written })
}

// All three in one number, as the two calls give them back.
pub fn pack(number: u8, actions: u8, written: u16) -> u64
    ensures { result ≡ packed number actions written }
{
    u64::from(number) + 256 * u64::from(actions) + 65536 * u64::from(written)
}

// All three of what a rule gives: a refusal's number beside no action and no byte.
pub fn counts(answer: Result<Done, Refusal>) -> (u8, u8, u16)
    ensures number { result.0 ≡ number_given answer }
    ensures actions { result.1 ≡ actions_given answer }
    ensures written { result.2 ≡ written_given answer }
{
    match answer {
        Ok(given) => (0, given.actions, given.written),
        Err(why) => (u8::from(why), 0, 0),
    }
}

pub fn pack_given(answer: Result<Done, Refusal>) -> u64
    ensures { result ≡ packed (number_given answer) (actions_given answer) (written_given answer) }
{
    let (number, actions, written) = counts(answer);
    pack(number, actions, written)
}

#[tactic(auto, using(rules::proofs::Steps::Answer::number_in_is))]
pub fn number_in(answer: u64) -> u64
    ensures { result ≡ number_in answer }
{
    answer % 256
}

#[tactic(auto, using(rules::proofs::Steps::Answer::actions_in_is))]
pub fn actions_in(answer: u64) -> u64
    ensures { result ≡ actions_in answer }
{
    answer / 256 % 256
}

#[tactic(auto, using(rules::proofs::Steps::Answer::bytes_in_is))]
pub fn bytes_in(answer: u64) -> usize
    ensures { result ≡ bytes_in answer }
{
    (answer / 65536 % 65536) as usize
}
