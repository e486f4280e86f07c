// The lines of the first section: the module numbers, all different.
ghost use Rattle.std.specs.Prelude.{◌≡◌, ◌≤◌, length};
ghost use Rattle.sheet.specs.Entries.{entries_at, module_line};
ghost use Rattle.sheet.specs.Inside.{entered_up_to};

use limits::{Refusal, Refused};

// So many module lines from `start` on. No call of `entries`: document 01 wants the search for an equal number
// nested in the lines, and left by a label.
pub fn module_lines(
    list: &mut [u16],
    s: &[u8],
    start: usize,
    count: usize,
) -> Result<usize, Refused>
    requires { count ≤ length list.old }
    ensures read { entered_up_to result list.new ≡ entries_at (module_line s.now) list.old count start }
    ensures long { length list.new ≡ length list.old }
{
    let mut at = start;
    'lines: {
        for k in 0..count {
            let (value, next) = sheet_lines::line(s, at, 1, limits::MODULE_MOST)?;
            let number = value as u16;
            for j in 0..k {
                if list[j] == number {
                    break 'lines;
                }
            }
            list[k] = number;
            at = next;
        }
        return Ok(at);
    }
    Err(Refusal::ModuleTwice.at(at))
}
