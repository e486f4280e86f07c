// Sets of seats: seat j of 0 to 31 is in the set where binary digit j of the mask is 1.
#![tactic(auto)]

ghost use Rattle.std.specs.Prelude.{◌≡◌, leb};
ghost use Rattle.seats.specs.Sets.{has_seat, without_seat, full_set, size_of};

// Is seat j in the set?
pub fn has(set: u32, j: usize) -> bool
    ensures { result ≡ has_seat set j }
{
    j < 32 && (set >> j) % 2 == 1
}

// The set without seat j.
pub fn without(set: u32, j: usize) -> u32
    ensures { result ≡ without_seat set j }
{
    if j < 32 { set & !(1 << j) } else { set }
}

// The seats 0 to n - 1, or all 32 where n is larger.
pub fn full(n: usize) -> u32
    ensures { result ≡ full_set n }
{
    if n < 32 { (1 << n) - 1 } else { u32::MAX }
}

// Is no seat n or above in the set? Then it is at most the full set.
pub fn within(set: u32, n: usize) -> bool
    ensures { result ≡ leb set (full_set n) }
{
    set <= full(n)
}

// How many seats are in the set.
pub fn size(set: u32) -> u32
    ensures { result ≡ size_of set }
{
    set.count_ones()
}
