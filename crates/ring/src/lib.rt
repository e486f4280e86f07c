// The membership engine: a ring of modules, stepped slot by slot, with its trail and its verdict.
#![tactic(auto)]

ghost use Rattle.std.specs.Prelude.{◌≡◌, ◌<◌};
ghost use Rattle.limits.specs.Limits.{seats_most};
ghost use Rattle.ring.specs.Ring.{seat_of};
ghost use Rattle.ring.specs.Refusals.{found, verdict_found};
ghost use Rattle.ring.specs.Inside.{slot_told};
ghost use Rattle.ring.specs.Promise.{ZeroPromise, FreshPromise, StepPromise, VerdictPromise};

use limits::{Refusal, Refused};
use turn::{Seat, Slot};

mod check; // check.rt: what is a ring, and which receive marks stand
mod draw; // draw.rt: the step's two passes over the seats
mod start; // start.rt: the zero ring and a fresh one

// The whole ring is one value, as document 01 wants it: fixed arrays, passed and given back. Each seat has the
// time of its first fault, if it has had one.
#[derive(Clone, Copy)]
pub struct Ring {
    pub sets: [u32; limits::SEATS_MOST],
    pub acks: [bool; limits::SEATS_MOST],
    pub doubts: [bool; limits::SEATS_MOST],
    pub faults: [Option<u16>; limits::SEATS_MOST],
    pub n: usize,
    pub time: u16,
    pub records: u16,
}

// How a fresh ring or a step was answered, and the ring after it: document 01 wants it handed back when it is
// refused too.
#[derive(Clone, Copy)]
pub struct Stepped {
    pub answer: Result<(), Refused>,
    pub ring: Ring,
}

// The fault terms hold up to the last step taken, or fail first up to the step named. No Option: the page has a
// word for each, and None would have to be read as one of them.
#[derive(Clone, Copy)]
pub enum Verdict {
    Within,
    Outside(u16),
}

// The verdict, and the ring handed back, as by a step; two structs, since one for any answer has no name for it.
#[derive(Clone, Copy)]
pub struct Judged {
    pub verdict: Result<Verdict, Refused>,
    pub ring: Ring,
}

impl Ring {
    // No ring: no seats, every set empty, every bit false, no first fault.
    pub fn zero() -> Ring
        ensures { ZeroPromise result }
    {
        start::zero_ring()
    }

    // A ring of n seats, complete and sound; the ring it is asked of plays no part.
    pub fn fresh(self, n: usize) -> Stepped
        ensures { FreshPromise n result }
    {
        if (limits::SEATS_LEAST..=limits::SEATS_MOST).contains(&n) {
            return Stepped {
                answer: Ok(()),
                ring: start::fresh_ring(n),
            };
        }
        Stepped {
            answer: Err(Refusal::NotARing.at(0)),
            ring: start::zero_ring(),
        }
    }

    // One slot: the owner's send mark, the seats with a receive mark, and the trail that takes the records.
    pub fn step(self, send: bool, receive: u32, trail: &mut [u8]) -> Stepped
        ensures { StepPromise self send receive trail.old result trail.new }
    {
        let mut ring = self;
        let answer = self.take(&mut ring, send, receive, trail);
        Stepped { answer, ring }
    }

    // Whether the fault terms hold up to the last step taken.
    pub fn verdict(self) -> Judged
        ensures { VerdictPromise self result }
    {
        Judged {
            verdict: self.judged(),
            ring: self,
        }
    }

    // Seat p.
    fn seat(&self, p: usize) -> Seat
        requires { p < seats_most }
        ensures { result ≡ seat_of self.now p }
    {
        Seat {
            set: self.sets[p],
            ack: self.acks[p],
            doubt: self.doubts[p],
            fault: self.faults[p],
        }
    }

    // The step taken in `next`, which comes as the ring is; a refused one leaves it so, and the trail as it is. The
    // records are counted before any is written, so that a step without room leaves no trace. Most steps remove nobody,
    // and then no seat is looked at again. Besides `next` the ring is not copied.
    fn take(
        &self,
        next: &mut Ring,
        send: bool,
        receive: u32,
        trail: &mut [u8],
    ) -> Result<(), Refused>
        requires { next.old ≡ self.now }
        ensures { StepPromise self.now send receive trail.old (record { answer = result; ring = next.new }) trail.new }
    {
        let room = trail::room_for(trail.len());
        let slot = self.slot(send, receive, room)?;
        let count = draw::draw(next, slot);
        let records = self.records as usize;
        let total = records + count;
        if room < total {
            *next = *self;
            return Err(Refusal::NoRoom.at(self.time as usize));
        }
        if count != 0 {
            draw::write(self, slot, trail);
        }
        next.time = self.time + 1;
        next.records = total as u16;
        Ok(())
    }

    // The slot of the step, where the ring and the marks stand and a run has a slot left.
    #[tactic(auto, unfolding(crate::specs::Inside::slot_told))]
    fn slot(&self, send: bool, receive: u32, room: usize) -> Result<Slot, Refused>
        ensures { result ≡ slot_told self.now send receive room }
    {
        if !check::is_ring(self, room) {
            return Err(Refusal::NotARing.at(0));
        }
        let time = self.time as usize;
        let owner = time % self.n;
        let seat = self.seat(owner);
        let slot = Slot {
            time: self.time,
            owner,
            spoken: turn::speak(owner, seat.set, seat.ack, send),
            send,
            receive,
        };
        if !check::marks_stand(slot, self.n) {
            return Err(Refusal::WrongMark.at(time));
        }
        if time == limits::SLOTS_MOST {
            return Err(Refusal::AtTheEnd.at(time));
        }
        Ok(slot)
    }

    #[tactic(auto, unfolding(crate::specs::Refusals::verdict_found))]
    fn judged(&self) -> Result<Verdict, Refused>
        ensures { found result ≡ verdict_found self.now }
    {
        if !check::is_ring(self, limits::ROOM_MOST) {
            return Err(Refusal::NotARing.at(0));
        }
        let first = terms::first_failing(self.faults, self.n, self.time);
        if first < self.time {
            return Ok(Verdict::Outside(first));
        }
        Ok(Verdict::Within)
    }
}
