// The run program: a sheet from standard input, its page to standard output, and nothing besides.
#![tactic(auto)]

ghost use Rattle.std.specs.Io.{ReadsAtMost};
ghost use Rattle.std.specs.Prelude.{◌≡◌, length, OnErr};

use std::io;
use std::io::{Read, Write};

// At most so many bytes are read, and what was read is handed on.
const SHEET_READ: usize = 16384;

// Reads until the buffer is full or the input ends: how many bytes then stand at its start. An error leaves the
// buffer its length, and of what it holds nothing is said. Each program has its own: no library may name `std::io`
// (`.ci/axioms`).
fn read_full(input: &mut impl Read, buffer: &mut [u8]) -> io::Result<usize>
    ensures ok { ReadsAtMost result buffer.new }
    ensures err { OnErr result (length buffer.new ≡ length buffer.old) }
{
    let mut got = 0;
    for _ in 0..buffer.len() {
        let n = input.read(&mut buffer[got..])?;
        got += n;
        if n == 0 || got == buffer.len() {
            break;
        }
    }
    Ok(got)
}

fn main(rt: HostRuntime) -> io::Result<()> {
    let mut sheet = [0u8; SHEET_READ];
    let got = read_full(&mut rt.stdin(), &mut sheet)?;
    let mut page = report::no_page();
    match sheet_page::page(&sheet[..got], &mut page) {
        Some(length) => rt.stdout().write_all(&page[..length]),
        None => Ok(()),
    }
}
