// Run sheets: from any bytes whatever to a sheet value and an answer, as document 01 says under 'Run sheets'
// and 'Refusal numbers'.
#![tactic(auto)]

ghost use Rattle.std.specs.Prelude.{◌≡◌};
ghost use Rattle.sheet.specs.Sheets.{no_sheet, sheet_in, ReadPromise};
ghost use Rattle.sheet.specs.Inside.{filled, read_of};

use limits::{Refusal, Refused};

mod empty; // empty.rt: the sheet without entries
mod entries; // entries.rt: the lines of a section
mod modules; // modules.rt: the lines of the first section
mod marks; // marks.rt: those of the second
mod slots; // slots.rt: those of the third

// A mark of a seat at a time, of one of the kinds. A kind is its byte: document 01 wants zero past the last
// mark, and no kind is zero.
#[derive(Clone, Copy)]
pub struct Mark {
    pub time: u16,
    pub seat: u8,
    pub kind: u8,
}

// A sheet: the module number of each seat, the marks, and what was heard in each slot. There is no heap, so a
// list is an array with its count beside it, and entries past each count are zero: so what was heard is a byte too.
#[derive(Clone, Copy)]
pub struct Sheet {
    pub n: usize,
    pub modules: [u16; limits::SEATS_MOST],
    pub mark_count: usize,
    pub marks: [Mark; limits::MARKS_MOST],
    pub slot_count: usize,
    pub slots: [u8; limits::SLOTS_MOST],
}

// Whether a sheet is refused, and the sheet: a refused one too gives a value, as document 01 says.
#[derive(Clone, Copy)]
pub struct Reading {
    pub answer: Result<(), Refused>,
    pub sheet: Sheet,
}

// Ring, marks and slots into an empty sheet, each a count and as many lines, and no bytes after them.
#[tactic(auto, unfolding(crate::specs::Sheets::sheet_in))]
fn fill(sheet: &mut Sheet, bytes: &[u8]) -> Result<(), Refused>
    requires { sheet.old ≡ no_sheet }
    ensures { filled result sheet.new ≡ read_of (sheet_in bytes.now) }
{
    let (n, at) = sheet_lines::line(bytes, 0, limits::SEATS_LEAST, limits::SEATS_MOST)?;
    let at = modules::module_lines(&mut sheet.modules, bytes, at, n)?;
    let (mark_count, at) = sheet_lines::line(bytes, at, 0, limits::MARKS_MOST)?;
    let at = marks::mark_lines(&mut sheet.marks, bytes, at, n, mark_count)?;
    let (slot_count, at) = sheet_lines::line(bytes, at, 0, limits::SLOTS_MOST)?;
    let end = slots::slot_lines(&mut sheet.slots, bytes, at, slot_count)?;
    if end < bytes.len() {
        return Err(Refusal::BytesAfter.at(end));
    }
    sheet.n = n;
    sheet.mark_count = mark_count;
    sheet.slot_count = slot_count;
    Ok(())
}

// Read a sheet. A refused one gives a sheet with no seats, marks or slots.
pub fn read(bytes: &[u8]) -> Reading
    ensures { ReadPromise bytes.now result }
{
    let mut sheet = empty::no_sheet();
    match fill(&mut sheet, bytes) {
        Ok(()) => Reading {
            answer: Ok(()),
            sheet,
        },
        Err(refused) => Reading {
            answer: Err(refused),
            sheet: empty::no_sheet(),
        },
    }
}
