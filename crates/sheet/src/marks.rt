// The lines of the second section: the marks.
ghost use Rattle.std.specs.Prelude.{◌≡◌, ◌≤◌, ◌<◌, length};
ghost use Rattle.limits.specs.Limits.{seats_most};
ghost use Rattle.sheet_lines.specs.Pieces.{found_of};
ghost use Rattle.sheet.specs.Entries.{entries_at};
ghost use Rattle.sheet.specs.Marks.{mark, above, allowed, mark_line};
ghost use Rattle.sheet.specs.Inside.{offence_after, kept_or, next_mark, entered_up_to};

use crate::Mark;
use crate::entries::entries;
use limits::{Refusal, Refused};
use sheet_lines::Piece;

// Is a mark above the last one, by time, then seat?
fn is_above(last: Mark, m: Mark) -> bool
    ensures { result ≡ above last m }
{
    (last.time, last.seat) < (m.time, m.seat)
}

// A send mark is for the owner of the slot, and a receive mark is not.
fn is_allowed(n: usize, m: Mark) -> bool
    requires { 0 < n }
    ensures { result ≡ allowed n m }
{
    let is_owner = usize::from(m.seat) == usize::from(m.time) % n;
    match m.kind {
        sheet_lines::SEND => is_owner,
        sheet_lines::RECEIVE => !is_owner,
        _ => true,
    }
}

// The mark of these values after the earlier ones, or its first offence: 3, then 5, then 6. The kind is a byte, as
// in a mark; that n is a number of seats was found when its line was read.
#[tactic(auto, unfolding(crate::specs::Marks::mark_offence))]
fn checked(n: usize, earlier: &[Mark], time: usize, seat: usize, kind: u8) -> Result<Mark, Refusal>
    requires { (0 < n) × (n ≤ seats_most) }
    ensures { result ≡ kept_or (mark time seat kind) (offence_after n earlier.now (mark time seat kind)) }
{
    if limits::SLOTS_MOST <= time || n <= seat {
        return Err(Refusal::OutsideLimits);
    }
    let mark = Mark {
        time: time as u16,
        seat: seat as u8,
        kind,
    };
    if earlier.last().is_some_and(|last| !is_above(*last, mark)) {
        return Err(Refusal::MarkNotAbove);
    }
    if !is_allowed(n, mark) {
        return Err(Refusal::WrongMark);
    }
    Ok(mark)
}

// `time seat kind`, to the line's end.
#[tactic(auto, unfolding(crate::specs::Marks::fields_at, crate::specs::Inside::next_mark))]
fn mark(s: &[u8], at: usize, n: usize, earlier: &[Mark]) -> Piece<Mark>
    requires { (0 < n) × (n ≤ seats_most) }
    ensures { found_of result ≡ next_mark n earlier.now s.now at }
{
    let (time, next) = sheet_lines::spaced(s, at)?;
    let (seat, next) = sheet_lines::spaced(s, next)?;
    let (kind, next) = sheet_lines::kind(s, next)?;
    let mark = checked(n, earlier, time, seat, kind).map_err(|why| why.at(at))?;
    Ok((mark, next))
}

// So many mark lines from `start` on, of a ring of n seats.
pub fn mark_lines(
    list: &mut [Mark],
    s: &[u8],
    start: usize,
    n: usize,
    count: usize,
) -> Result<usize, Refused>
    requires { (count ≤ length list.old) × (0 < n) × (n ≤ seats_most) }
    ensures read { entered_up_to result list.new ≡ entries_at (mark_line n s.now) list.old count start }
    ensures long { length list.new ≡ length list.old }
{
    entries(list, start, count, |earlier, at| mark(s, at, n, earlier))
}
