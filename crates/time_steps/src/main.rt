// A benchmark: a ring of 32 stepped 409,600 times, a hundred runs of 4,096 slots. It is timed by hand and
// never asserted.
#![tactic(auto)]

use ring::Ring;
use std::io;

// So many slots without marks; the records that the ring then has.
fn quiet_slots(start: Ring, trail: &mut [u8], slots: u16) -> u16 {
    let mut ring = start;
    for _ in 0..slots {
        ring = ring.step(false, 0, trail).ring;
    }
    ring.records
}

// A whole run of a fresh ring of 32 in which seat 5 misses slot 0.
fn whole_run() -> u64 {
    let mut trail = trail::empty();
    let ring = Ring::zero().fresh(32).ring.step(false, 32, &mut trail).ring;
    quiet_slots(ring, &mut trail, 4095) as u64
}

fn say(rt: &impl Print, records: u64) -> io::Result<()> {
    println!(rt; "{records} records in each run")
}

fn main(rt: HostRuntime) -> io::Result<()> {
    let mut records: u64 = 0;
    for _ in 0..100 {
        records = whole_run();
    }
    say(&rt, records)
}
