// Memory that a program lends.
ghost use Rattle.std.specs.Prelude.{◌≡◌, length, slice_index, EachIndex};

// So many zeros.
pub fn zeros<const N: usize>() -> [u8; N]
    ensures long { N ≡ length result }
    ensures zero { EachIndex result (λ k. slice_index result k ≡ 0) }
{
    [0; N]
}
