// What stands on the lines of a sheet, read from any bytes whatever: a number alone, a number and a space, a
// byte alone.
#![tactic(auto)]

ghost use Rattle.std.specs.Prelude.{◌≡◌, ◌≤◌, ℕ, Bool, IfOk};
ghost use Rattle.sheet_lines.specs.Bytes.{is_kind, is_heard};
ghost use Rattle.sheet_lines.specs.Classes.{Tests};
ghost use Rattle.sheet_lines.specs.Lines.{end_at, line_at, spaced_at, lone_at};
ghost use Rattle.sheet_lines.specs.Pieces.{found_of};

use limits::{Refusal, Refused};

mod bytes; // bytes.rt: what a byte is, and which may stand at a place
mod numbers; // numbers.rt: numbers

// The kinds of marks.
pub const SEND: u8 = b'S';

pub const RECEIVE: u8 = b'R';

pub const DARK: u8 = b'D';
// What the bus recorder heard.
pub const HEARD_ONE: u8 = b'1';

pub const HEARD_ZERO: u8 = b'0';

pub const HEARD_SILENCE: u8 = b'-';

// What was found, and the place after it; or what is refused. Bytes and place go beside each other: a cursor
// would have its next place in itself where something is found, and none where not.
pub type Piece<T> = Result<(T, usize), Refused>;

// The end of a line: how many bytes it took, and the place after it. No one else knows what ends a line.
#[tactic(auto, unfolding(crate::specs::Lines::end_at))]
fn end(s: &[u8], at: usize) -> Piece<usize>
    ensures { found_of result ≡ end_at s.now at }
{
    let (_, next) = bytes::byte(s, at, bytes::is_line_feed)?;
    Ok((1, next))
}

// A number alone on its line, from `least` to `most`.
#[tactic(auto, unfolding(crate::specs::Lines::line_at, crate::specs::Lines::ended))]
pub fn line(s: &[u8], at: usize, least: usize, most: usize) -> Piece<usize>
    ensures read { found_of result ≡ line_at least most s.now at }
    ensures within { IfOk result (λ r. (least ≤ r.0) × (r.0 ≤ most)) }
{
    let (value, past) = numbers::number(s, at)?;
    let (_, next) = end(s, past)?;
    if !(least..=most).contains(&value) {
        return Err(Refusal::OutsideLimits.at(at));
    }
    Ok((value, next))
}

// A number and one space.
#[tactic(auto, unfolding(crate::specs::Lines::spaced_at))]
pub fn spaced(s: &[u8], at: usize) -> Piece<usize>
    ensures { found_of result ≡ spaced_at s.now at }
{
    let (value, past) = numbers::number(s, at)?;
    let (_, next) = bytes::byte(s, past, bytes::is_space)?;
    Ok((value, next))
}

// A byte alone on its line.
#[tactic(auto, unfolding(crate::specs::Lines::ended))]
fn lone<F: Fn(u8) -> bool>(s: &[u8], at: usize, can: F) -> Piece<u8>
    ghost may: { ℕ → Bool }
    requires called { F.IsAlwaysCallable can }
    requires tests { Tests (F.post can) may }
    ensures { found_of result ≡ lone_at may s.now at }
{
    let (b, past) = bytes::byte(s, at, can)?;
    let (_, next) = end(s, past)?;
    Ok((b, next))
}

// The kind of a mark, alone on what is left of its line: its byte, as a mark keeps it.
pub fn kind(s: &[u8], at: usize) -> Piece<u8>
    ensures { found_of result ≡ lone_at is_kind s.now at }
{
    lone(s, at, bytes::is_kind)
}

// What the bus recorder heard, alone on its line: its byte, as a sheet keeps it.
pub fn heard(s: &[u8], at: usize) -> Piece<u8>
    ensures { found_of result ≡ lone_at is_heard s.now at }
{
    lone(s, at, bytes::is_heard)
}
