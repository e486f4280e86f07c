// The lines of the third section: what the bus recorder heard.
ghost use Rattle.std.specs.Prelude.{◌≡◌, ◌≤◌, length};
ghost use Rattle.sheet.specs.Entries.{entries_at, slot_line};
ghost use Rattle.sheet.specs.Inside.{entered_up_to};

use crate::entries::entries;
use limits::Refused;

// So many slot lines from `start` on.
#[tactic(auto, unfolding(crate::specs::Entries::slot_line))]
pub fn slot_lines(list: &mut [u8], s: &[u8], start: usize, count: usize) -> Result<usize, Refused>
    requires { count ≤ length list.old }
    ensures read { entered_up_to result list.new ≡ entries_at (slot_line s.now) list.old count start }
    ensures long { length list.new ≡ length list.old }
{
    entries(list, start, count, |_, at| sheet_lines::heard(s, at))
}
