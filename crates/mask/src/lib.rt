// A u64 as a set of positions.

#![tactic(auto)]

ghost use Rattle.std.specs.Prelude.{◌-◌, ◌^◌, ◌≤◌, ◌<◌, ◌≡◌};
ghost use Rattle.std.specs.Int.Bits.{bit_and};
ghost use Rattle.mask.specs.Code.{has, Highest};

// The mask of one position.
pub fn single_at(i: u32) -> u64
    requires { i < 64 }
    ensures { result ≡ 2 ^ i }
{
    1u64 << i
}

// The mask of the n lowest positions.
pub fn all_below(n: u32) -> u64
    requires { n ≤ 64 }
    ensures { result ≡ 2 ^ n - 1 }
{
    if n == 0 {
        return 0;
    }
    u64::MAX >> (64 - n)
}

// Whether a position is in a mask.
pub fn is_in(m: u64, i: u32) -> bool
    requires { i < 64 }
    ensures { result ≡ has m i }
{
    m >> i & 1 == 1
}

// What a mask has besides its lowest position.
pub fn without_lowest(m: u64) -> u64
    ensures { result ≡ bit_and m (m - 1) }
{
    if m == 0 {
        return 0;
    }
    m & (m - 1)
}

// The highest position of a mask that is not empty.
pub fn highest(m: u64) -> u64
    requires { 0 < m }
    ensures { Highest m result }
{
    1u64 << (63 - u64::leading_zeros(m))
}
