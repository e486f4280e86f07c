// The rings that a run starts from: the zero ring and a fresh one.
ghost use Rattle.std.specs.Prelude.{◌≡◌, ◌≤◌};
ghost use Rattle.limits.specs.Limits.{seats_most};
ghost use Rattle.ring.specs.Ring.{zero_ring, fresh_ring};

use crate::Ring;

pub fn zero_ring() -> Ring
    ensures { result ≡ zero_ring }
{
    Ring {
        sets: [0; limits::SEATS_MOST],
        acks: [false; limits::SEATS_MOST],
        doubts: [false; limits::SEATS_MOST],
        faults: [None; limits::SEATS_MOST],
        n: 0,
        time: 0,
        records: 0,
    }
}

// Every seat in every set of the n seats, and every acknowledgement true.
pub fn fresh_ring(n: usize) -> Ring
    requires { n ≤ seats_most }
    ensures { result ≡ fresh_ring n }
{
    let full = seats::full(n);
    let mut ring = zero_ring();
    ring.n = n;
    for p in 0..n {
        ring.sets[p] = full;
        ring.acks[p] = true;
    }
    ring
}
