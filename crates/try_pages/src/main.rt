// Prints the page of every sheet in data/: those of sheets/, and document 01's sheets that are run and compared.
#![tactic(auto)]

ghost use Rattle.std.specs.Io.{ReadsAtMost};
ghost use Rattle.std.specs.Prelude.{◌≡◌, length, OnErr};

use std::io::{Read, Write};
use std::rt::Files;
use std::{fs, io};

// Reads until the buffer is full or the input ends: how many bytes then stand at its start. An error leaves the
// buffer its length, and of what it holds nothing is said. Each program has its own: no library may name `std::io`
// (`.ci/axioms`).
fn read_full(input: &mut impl Read, buffer: &mut [u8]) -> io::Result<usize>
    ensures ok { ReadsAtMost result buffer.new }
    ensures err { OnErr result (length buffer.new ≡ length buffer.old) }
{
    let mut got = 0;
    for _ in 0..buffer.len() {
        let n = input.read(&mut buffer[got..])?;
        got += n;
        if n == 0 || got == buffer.len() {
            break;
        }
    }
    Ok(got)
}

// The page of a sheet's bytes.
fn show_page(out: &mut impl Write, bytes: &[u8]) -> io::Result<()> {
    let mut page = report::no_page();
    match sheet_page::page(bytes, &mut page) {
        Some(length) => out.write_all(&page[..length]),
        None => Ok(()),
    }
}

// The sheet in a file of this name, below its name.
fn show(rt: &impl Files, out: &mut impl Write, name: &str) -> io::Result<()> {
    writeln!(out, "{name}")?;
    let mut file = fs::open(rt, name)?;
    let mut sheet = [0u8; 16384];
    let got = read_full(&mut file, &mut sheet)?;
    show_page(out, &sheet[..got])
}

// The files, in the order in which they are printed.
const SHEETS: [&str; 19] = [
    "accepted.sheet",
    "alone.sheet",
    "bus-differs.sheet",
    "bytes-after.sheet",
    "dark.sheet",
    "duplicate-module.sheet",
    "empty-run.sheet",
    "ends-early.sheet",
    "first.sheet",
    "five-apart.sheet",
    "four-apart.sheet",
    "leading-zero.sheet",
    "marks-not-ascending.sheet",
    "number-too-large.sheet",
    "one-more-byte.sheet",
    "out-by-e.sheet",
    "ring-of-32.sheet",
    "send-fault.sheet",
    "wrong-mark.sheet",
];

fn main(rt: HostRuntime) -> io::Result<()> {
    let mut out = rt.stdout();
    for name in SHEETS {
        show(&rt, &mut out, name)?;
    }
    Ok(())
}
