// Reads sheets and prints what each comes to: `name: read n marks slots`, or `name: refused NUMBER PLACE`.
// The file `sheets` holds many, each its name between `=` and a line feed and then its bytes up to the next
// `=`; two long ones have a file each.
#![tactic(auto)]

ghost use Rattle.std.specs.Io.{ReadsAtMost};
ghost use Rattle.std.specs.Prelude.{◌<◌, ◌≡◌, ◌≤◌, length, IfOk, OnErr};

use limits::Refused;
use sheet::Reading;
use std::io::{Read, Write};
use std::rt::Files;
use std::{fs, io};

// What is refused is written here as in `try_engine`: a `Display` of it would have a library name `std` (`.ci/axioms`).
fn report(out: &mut impl Write, name: &[u8], bytes: &[u8]) -> io::Result<()> {
    let Reading { answer, sheet } = sheet::read(bytes);
    out.write_all(name)?;
    match answer {
        Ok(()) => writeln!(
            out,
            ": read {} {} {}",
            sheet.n, sheet.mark_count, sheet.slot_count
        ),
        Err(Refused { why, place }) => writeln!(out, ": refused {} {place}", why.number()),
    }
}

// The first place from `from` on where this byte stands, or the end.
fn find(file: &[u8], from: usize, byte: u8) -> usize
    requires { from ≤ length file.now }
    ensures { (from ≤ result) × (result ≤ length file.now) }
{
    match file[from..].iter().position(|b| *b == byte) {
        Some(passed) => from + passed,
        None => file.len(),
    }
}

// The sheet whose `=` stands at this place, and the place after it. An error is of what is written alone.
fn one(out: &mut impl Write, file: &[u8], at: usize) -> io::Result<usize>
    requires { at < length file.now }
    ensures { IfOk result (λ r. (at < r) × (r ≤ length file.now)) }
{
    let name = at + 1;
    let line = find(file, name, b'\n');
    if line == file.len() {
        return Ok(line);
    }
    let start = line + 1;
    let end = find(file, start, b'=');
    report(out, &file[name..line], &file[start..end])?;
    Ok(end)
}

// Every sheet of the file. No `for`: where the next sheet stands is known when this one is read.
fn each(out: &mut impl Write, file: &[u8]) -> io::Result<()> {
    let mut at: usize = 0;
    while at < file.len() {
        at = one(out, file, at)?;
    }
    Ok(())
}

// Reads until the buffer is full or the input ends: how many bytes then stand at its start. An error leaves the
// buffer its length, and of what it holds nothing is said. Each program has its own: no library may name `std::io`
// (`.ci/axioms`).
fn read_full(input: &mut impl Read, buffer: &mut [u8]) -> io::Result<usize>
    ensures ok { ReadsAtMost result buffer.new }
    ensures err { OnErr result (length buffer.new ≡ length buffer.old) }
{
    let mut got = 0;
    for _ in 0..buffer.len() {
        let n = input.read(&mut buffer[got..])?;
        got += n;
        if n == 0 || got == buffer.len() {
            break;
        }
    }
    Ok(got)
}

// What the file holds goes to the start of `buffer`. An error is as in `read_full`.
fn load(rt: &impl Files, name: &str, buffer: &mut [u8]) -> io::Result<usize>
    ensures ok { ReadsAtMost result buffer.new }
    ensures err { OnErr result (length buffer.new ≡ length buffer.old) }
{
    read_full(&mut fs::open(rt, name)?, buffer)
}

fn main(rt: HostRuntime) -> io::Result<()> {
    let mut out = rt.stdout();
    let mut buffer = [0u8; 20480];
    let many = load(&rt, "sheets", &mut buffer)?;
    each(&mut out, &buffer[..many])?;
    let longest = load(&rt, "longest", &mut buffer)?;
    report(&mut out, b"longest", &buffer[..longest])?;
    let longer = load(&rt, "longer", &mut buffer)?;
    report(&mut out, b"longer", &buffer[..longer])
}
