// The sheet without entries: before a line is read, and where a sheet is refused.
ghost use Rattle.std.specs.Prelude.{◌≡◌};
ghost use Rattle.sheet.specs.Sheets.{no_sheet};

use crate::{Mark, Sheet};

const NO_MARK: Mark = Mark {
    time: 0,
    seat: 0,
    kind: 0,
};

// No seats, marks or slots, and all entries zero.
#[tactic(auto, unfolding(crate::specs::Sheets::no_modules, crate::specs::Sheets::no_marks, crate::specs::Sheets::no_slots))]
pub fn no_sheet() -> Sheet
    ensures { result ≡ no_sheet }
{
    Sheet {
        n: 0,
        modules: [0; limits::SEATS_MOST],
        mark_count: 0,
        marks: [NO_MARK; limits::MARKS_MOST],
        slot_count: 0,
        slots: [0; limits::SLOTS_MOST],
    }
}
