// The numbers of a sheet.
ghost use Rattle.std.specs.Prelude.{◌≡◌, ◌<◌};
ghost use Rattle.sheet_lines.specs.Bytes.{digits_at, number_at};
ghost use Rattle.sheet_lines.specs.Found.{found};
ghost use Rattle.sheet_lines.specs.Pieces.{found_of};

use crate::{Piece, bytes};

// After its first digit a number has at most so many more.
const MORE: usize = 4;

// The digits from `start` on after a first one: the value, and the place after them.
fn digits(s: &[u8], start: usize, first: usize) -> (usize, usize)
    requires { first < 10 }
    ensures { found result.0 result.1 ≡ digits_at 4 first s.now start }
{
    let mut at = start;
    let mut value = first;
    for _ in 0..MORE {
        let Ok((digit, next)) = bytes::byte(s, at, bytes::is_digit) else {
            break;
        };
        value = value * 10 + usize::from(digit - b'0');
        at = next;
    }
    (value, at)
}

// 1 to 5 digits without a leading zero. What follows them decides the rest: a sixth digit, as one after a
// leading zero, cannot stand there.
#[tactic(auto, unfolding(crate::specs::Bytes::number_at))]
pub fn number(s: &[u8], at: usize) -> Piece<usize>
    ensures { found_of result ≡ number_at s.now at }
{
    let (digit, next) = bytes::byte(s, at, bytes::is_digit)?;
    if digit == b'0' {
        return Ok((0, next));
    }
    Ok(digits(s, next, usize::from(digit - b'0')))
}
