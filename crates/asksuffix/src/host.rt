// A host at the front of a stream that is held in part: a length of 2 bytes, and that many bytes.
ghost use Rattle.std.specs.Prelude.{false, ◌≡◌, ◌≤◌, ◌<◌, length};
ghost use Rattle.asksuffix.specs.Rule.Hosts.{most_bytes, host_bytes, host_whole};

use terms::num::num_at;

// How many bytes it takes, its length among them.
#[tactic(auto, using(crate::specs::Laws::Hosts::bytes_tests))]
pub fn host_bytes(s: &[u8]) -> usize
    requires { 2 ≤ length s.now }
    ensures { (result ≡ host_bytes s.now) × (result ≤ most_bytes) }
{
    2 + num_at::<2>(s, 0)
}

// All of it is there; where it is not, the bytes that are there are fewer than a host can take.
#[tactic(auto, using(crate::specs::Laws::Hosts::whole_tests, std::proofs::lemmas::Bool::Decides::nat_tests))]
pub fn is_whole(s: &[u8]) -> bool
    ensures { (result ≡ host_whole s.now) × (result ≡ false → length s.now < most_bytes) }
{
    2 <= s.len() && host_bytes(s) <= s.len()
}
