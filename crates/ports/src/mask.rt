// Sets of ports as masks: bit p is port p's.
ghost use Rattle.std.specs.Prelude.{◌≡◌};
ghost use Rattle.std.specs.Int.Count.{count_trailing_zeros};

// The lowest-numbered port of a mask that has one.
pub fn lowest_port(mask: u64) -> usize
    ensures { result ≡ count_trailing_zeros 64 mask }
{
    mask.trailing_zeros() as usize
}
