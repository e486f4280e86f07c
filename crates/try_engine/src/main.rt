// The engine's runs of document 01 that are run and compared: the room for records, and every kind of refusal
// of a step, a fresh ring and a verdict.
#![tactic(auto)]

use limits::Refused;
use ring::{Judged, Ring, Stepped, Verdict};
use std::io;
use std::io::Write;

// Every byte of a trail.
fn say_trail(out: &mut impl Write, trail: &[u8]) -> io::Result<()> {
    write!(out, "trail")?;
    for b in trail {
        write!(out, " {b}")?;
    }
    writeln!(out)
}

// Here and in `try_sheets`: a `Display` of what is refused would have a library name `std` (`.ci/axioms`).
fn say_refused(out: &mut impl Write, name: &str, refused: Refused) -> io::Result<()> {
    let number = refused.why.number();
    let place = refused.place;
    write!(out, "{name}: refused {number} {place}")
}

// What a step or a fresh ring was answered, and the ring's size, time and records after it.
fn report(out: &mut impl Write, name: &str, s: Stepped) -> io::Result<()> {
    match s.answer {
        Ok(()) => write!(out, "{name}: taken")?,
        Err(refused) => say_refused(out, name, refused)?,
    }
    let ring = s.ring;
    let (n, time, records) = (ring.n, ring.time, ring.records);
    writeln!(out, "; n, time and records {n} {time} {records}")
}

fn report_verdict(out: &mut impl Write, name: &str, j: Judged) -> io::Result<()> {
    match j.verdict {
        Ok(Verdict::Within) => write!(out, "{name}: within")?,
        Ok(Verdict::Outside(t)) => write!(out, "{name}: outside {t}")?,
        Err(refused) => say_refused(out, name, refused)?,
    }
    writeln!(out)
}

fn fresh(n: usize) -> Ring {
    Ring::zero().fresh(n).ring
}

// One step of a ring, with room for every record.
fn try_step(
    out: &mut impl Write,
    name: &str,
    ring: Ring,
    send: bool,
    receive: u32,
) -> io::Result<()> {
    let mut trail = trail::empty();
    report(out, name, ring.step(send, receive, &mut trail))
}

fn try_quiet(out: &mut impl Write, name: &str, ring: Ring) -> io::Result<()> {
    try_step(out, name, ring, false, 0)
}

fn try_fresh(out: &mut impl Write, name: &str, n: usize) -> io::Result<()> {
    report(out, name, Ring::zero().fresh(n))
}

fn try_verdict(out: &mut impl Write, name: &str, ring: Ring) -> io::Result<()> {
    report_verdict(out, name, ring.verdict())
}

// The step of a fresh ring of 4 in which the owner cannot send makes 3 records: with room for 3, and for 2.
fn rooms(out: &mut impl Write) -> io::Result<()> {
    let mut three = [7u8; 3 * trail::WIDTH];
    report(
        out,
        "three records, room for 3",
        fresh(4).step(true, 0, &mut three),
    )?;
    say_trail(out, &three)?;
    let mut two = [7u8; 3 * trail::WIDTH - 1];
    report(
        out,
        "three records, room for 2",
        fresh(4).step(true, 0, &mut two),
    )?;
    say_trail(out, &two)?;
    let mut none = [0u8; 0];
    report(
        out,
        "no record, no buffer",
        fresh(4).step(false, 0, &mut none),
    )?;
    report(
        out,
        "three records, no buffer",
        fresh(4).step(true, 0, &mut none),
    )
}

// Seats that no ring of 4 has, in a set or with something of their own.
fn strangers(out: &mut impl Write) -> io::Result<()> {
    let mut r = fresh(4);
    r.sets[1] = 16;
    try_quiet(out, "seat 4 in a set of a ring of 4", r)?;
    r = fresh(4);
    r.sets[4] = 1;
    try_quiet(out, "seat 4 has a member", r)?;
    r = fresh(4);
    r.acks[31] = true;
    try_quiet(out, "seat 31 has an acknowledgement", r)?;
    r = fresh(4);
    r.doubts[5] = true;
    try_quiet(out, "seat 5 has a doubt", r)?;
    r = fresh(4);
    r.faults[6] = Some(0);
    try_quiet(out, "seat 6 has a first fault", r)
}

// Sizes, times and counts at their limits and past them.
fn limits_of_a_ring(out: &mut impl Write) -> io::Result<()> {
    let mut r = fresh(4);
    r.n = 1;
    try_quiet(out, "a ring of 1", r)?;
    r.n = 33;
    try_quiet(out, "a ring of 33", r)?;
    try_quiet(out, "a ring of 32", fresh(32))?;
    r = fresh(4);
    r.time = 4097;
    try_quiet(out, "time 4,097", r)?;
    r.time = 7;
    r.faults[2] = Some(7);
    try_quiet(out, "a first fault at the time", r)?;
    r.faults[2] = Some(6);
    try_quiet(out, "a first fault just before the time", r)?;
    r = fresh(4);
    r.records = limits::ROOM_MOST as u16 + 1;
    try_quiet(out, "more records than the room", r)?;
    r.records = limits::ROOM_MOST as u16;
    try_quiet(out, "as many records as the room", r)
}

// Marks that no step has, and the last time; and which refusal comes first.
fn marks_and_ends(out: &mut impl Write) -> io::Result<()> {
    let mut r = fresh(4);
    try_step(out, "a receive mark for the owner", r, false, 1)?;
    try_step(out, "a receive mark for seat 4 of 4", r, false, 16)?;
    r.time = 4095;
    try_quiet(out, "time 4,095", r)?;
    r.time = 4096;
    try_quiet(out, "time 4,096", r)?;
    try_step(out, "time 4,096 and a wrong mark", r, false, 1)?;
    r.records = limits::ROOM_MOST as u16;
    try_step(out, "time 4,096 and a full trail", r, true, 0)?;
    r.n = 33;
    try_step(out, "not a ring and a wrong mark", r, false, 1)
}

fn starts(out: &mut impl Write) -> io::Result<()> {
    try_fresh(out, "a fresh ring of 1", 1)?;
    try_fresh(out, "a fresh ring of 2", 2)?;
    try_fresh(out, "a fresh ring of 32", 32)?;
    try_fresh(out, "a fresh ring of 33", 33)?;
    try_quiet(out, "a step of the zero ring", Ring::zero())
}

fn verdicts(out: &mut impl Write) -> io::Result<()> {
    try_verdict(out, "verdict on the zero ring", Ring::zero())?;
    try_verdict(out, "verdict on a fresh ring", fresh(2))?;
    let mut r = fresh(4);
    r.time = 9;
    r.faults[1] = Some(1);
    r.faults[2] = Some(6);
    try_verdict(out, "first faults at 1 and 6 of a ring of 4", r)?;
    r.faults[2] = Some(5);
    try_verdict(out, "first faults at 1 and 5 of a ring of 4", r)?;
    r = fresh(2);
    r.time = 9;
    r.faults[0] = Some(2);
    try_verdict(out, "one sound seat of a ring of 2", r)?;
    r.records = limits::ROOM_MOST as u16 + 1;
    try_verdict(out, "verdict with 1,025 records", r)
}

fn main(rt: HostRuntime) -> io::Result<()> {
    let mut stdout = rt.stdout();
    let out = &mut stdout;
    rooms(out)?;
    strangers(out)?;
    limits_of_a_ring(out)?;
    marks_and_ends(out)?;
    starts(out)?;
    verdicts(out)
}
