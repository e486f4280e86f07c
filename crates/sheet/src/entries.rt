// The lines of a section, each of which gives an entry.
ghost use Rattle.std.specs.Prelude.{◌≡◌, ◌≤◌, ℕ, List, length};
ghost use Rattle.sheet_lines.specs.Found.{Found};
ghost use Rattle.sheet.specs.Entries.{entries_at};
ghost use Rattle.sheet.specs.Inside.{Enters, entered_up_to};

use limits::Refused;
use sheet_lines::Piece;

// So many lines from `start` on, each entered in its place of the list, and the place after them. A line is read from
// its place, and may look at the entries before its own. No list is handed on: a large one would be copied each time.
pub fn entries<T: Copy, F: Fn(&[T], usize) -> Piece<T>>(
    list: &mut [T],
    start: usize,
    count: usize,
    line: F,
) -> Result<usize, Refused>
    ghost line_at: { ℕ → ℕ → List T → Found (List T) }
    requires room { count ≤ length list.old }
    requires called { F.IsAlwaysCallable line }
    requires enters { Enters (F.post line) line_at }
    ensures read { entered_up_to result list.new ≡ entries_at line_at list.old count start }
    ensures long { length list.new ≡ length list.old }
{
    let mut at = start;
    for k in 0..count {
        (list[k], at) = line(&list[..k], at)?;
    }
    Ok(at)
}
