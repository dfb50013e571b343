// Frames of a stream that is held in part: where one ends, and how many are ready.
ghost use Rattle.std.specs.Prelude.{◌≡◌, ◌≤◌, length};
ghost use Rattle.logs.specs.Log.{whole, oversized, first_bytes};
ghost use Rattle.logs.specs.Inner.{ready, IsFront};

use terms::num::num_at;

// What a stream begins with.
#[derive(Clone, Copy)]
pub enum Front {
    // a whole frame, of so many bytes
    Whole(usize),
    // a head whose size exceeds 4,096
    Oversized,
    // less than that, or nothing
    Cut,
}

// Events that may be given to the kernel, and whether none comes after them.
#[derive(Clone, Copy)]
pub struct Ready {
    pub count: u64,
    pub last: bool,
}

#[tactic(auto, using(crate::specs::Laws::First::whole_is, crate::specs::Laws::First::oversized_is, std::proofs::lemmas::Bool::Decides::nat_tests))]
pub fn front_of(s: &[u8]) -> Front
    ensures { IsFront s.now result }
{
    if s.len() < 10 {
        return Front::Cut;
    }
    match num_at::<4>(s, 6) {
        4097.. => Front::Oversized,
        size if 10 + size <= s.len() => Front::Whole(10 + size),
        _ => Front::Cut,
    }
}

// The stream begins with a whole frame.
pub fn is_whole(s: &[u8]) -> bool
    ensures { result ≡ whole s.now }
{
    matches!(front_of(s), Front::Whole(_))
}

pub fn is_oversized(s: &[u8]) -> bool
    ensures { result ≡ oversized s.now }
{
    matches!(front_of(s), Front::Oversized)
}

// How many bytes the first event has.
#[tactic(auto, using(crate::specs::Laws::First::first_whole, crate::specs::Laws::First::first_oversized, crate::specs::Laws::First::first_rest))]
pub fn first_bytes(s: &[u8]) -> usize
    ensures { (result ≡ first_bytes s.now) × (result ≤ length s.now) }
{
    match front_of(s) {
        Front::Whole(size) => size,
        Front::Oversized => 10,
        Front::Cut => s.len(),
    }
}

// How many events are ready, so many at most.
pub fn count_ready(s: &[u8], ended: bool, most: u64) -> Ready
    ensures { result ≡ ready most ended s.now }
{
    let mut at = 0;
    for count in 0..most {
        let part = &s[at..];
        match front_of(part) {
            Front::Whole(size) => at += size,
            Front::Oversized => {
                return Ready {
                    count: count + 1,
                    last: true,
                };
            }
            Front::Cut => {
                let some = 0 < part.len();
                return Ready {
                    count: count + u64::from(ended && some),
                    last: ended,
                };
            }
        }
    }
    Ready {
        count: most,
        last: false,
    }
}
