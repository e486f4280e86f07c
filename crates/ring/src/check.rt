// What is a ring, and which receive marks stand: the checks that come before a step.
ghost use Rattle.std.specs.Prelude.{◌≡◌};
ghost use Rattle.ring.specs.Ring.{member_stands, absent_stands, seat_stands, every_seat_stands, is_ring};
ghost use Rattle.ring.specs.Refusals.{marks_stand};

use crate::Ring;
use turn::{Seat, Slot};

// A seat that the ring has.
fn member_stands(s: Seat, n: usize, time: u16) -> bool
    ensures { result ≡ member_stands n time s }
{
    seats::within(s.set, n) && s.fault.is_none_or(|t| t < time)
}

// A seat that the ring does not have. Its bits and its first fault are looked at together, with one branch for the three:
// of a small ring most of the 32 seats are such.
fn absent_stands(s: Seat) -> bool
    ensures { result ≡ absent_stands s }
{
    s.set == 0 && !(s.ack | s.doubt | s.fault.is_some())
}

fn seat_stands(s: Seat, p: usize, n: usize, time: u16) -> bool
    ensures { result ≡ seat_stands n time p s }
{
    if p < n {
        member_stands(s, n, time)
    } else {
        absent_stands(s)
    }
}

// All 32 are looked at, since a seat that the ring does not have must be empty.
fn every_seat_stands(ring: &Ring) -> bool
    ensures { result ≡ every_seat_stands ring.now }
{
    (0..limits::SEATS_MOST).all(|p| seat_stands(ring.seat(p), p, ring.n, ring.time))
}

// A ring, with room for the records that it has.
#[tactic(auto, unfolding(crate::specs::Ring::is_ring))]
pub fn is_ring(ring: &Ring, room: usize) -> bool
    ensures { result ≡ is_ring ring.now room }
{
    (limits::SEATS_LEAST..=limits::SEATS_MOST).contains(&ring.n)
        && ring.time as usize <= limits::SLOTS_MOST
        && ring.records as usize <= room
        && every_seat_stands(ring)
}

// No receive mark for the owner or for no seat.
pub fn marks_stand(slot: Slot, n: usize) -> bool
    ensures { result ≡ marks_stand n slot }
{
    seats::within(slot.receive, n) && !seats::has(slot.receive, slot.owner)
}
