// The marks of a slot, gathered as the run goes on: the marks of a sheet ascend by time, so that the place in
// them only moves forward.
ghost use Rattle.std.specs.Prelude.{◌≡◌, ◌<◌};
ghost use Rattle.limits.specs.Limits.{seats_most, marks_most};
ghost use Rattle.seats.specs.Joined.{added};
ghost use Rattle.sheet.specs.Good.{GoodSheet};
ghost use Rattle.run.specs.Inside.{none_gathered, with_mark, slot_over, given_by, Gathers, NoneLeft};

use sheet::{Mark, Sheet};

// What the marks gathered so far come to: how many they are, the seats with a mark in this slot, and those
// that are dark.
#[derive(Clone, Copy, Default)]
pub struct Gathered {
    pub next: usize,
    pub send: u32,
    pub receive: u32,
    pub dark: u32,
}

// What a step is given: the owner's send mark, and the seats with a receive mark.
#[derive(Clone, Copy)]
pub struct SlotMarks {
    pub send: bool,
    pub receive: u32,
}

// The set with the seat in it too, where that is so.
fn with_seat(set: u32, seat: usize, marked: bool) -> u32
    requires { seat < seats_most }
    ensures { result ≡ added set seat marked }
{
    if marked { set | (1 << seat) } else { set }
}

impl Gathered {
    pub fn none() -> Gathered
        ensures { result ≡ none_gathered }
    {
        Gathered::default()
    }

    // One mark more of this slot.
    fn with_mark(self, mark: Mark) -> Gathered
        requires { (self.next < marks_most) × (mark.seat < seats_most) }
        ensures { result ≡ with_mark self mark }
    {
        let seat = mark.seat as usize;
        Gathered {
            next: self.next + 1,
            send: with_seat(self.send, seat, mark.kind == sheet_lines::SEND),
            receive: with_seat(self.receive, seat, mark.kind == sheet_lines::RECEIVE),
            dark: with_seat(self.dark, seat, mark.kind == sheet_lines::DARK),
        }
    }

    // All the marks of the slot at this time. No mark of the sheet is looked at twice, but for the first one of
    // another slot.
    pub fn with_slot(self, sheet: &Sheet, at: usize) -> Gathered
        requires good { GoodSheet sheet.now }
        requires gathers { Gathers sheet.now at self }
        ensures gathers { Gathers sheet.now at result }
        ensures whole { NoneLeft sheet.now at result }
    {
        let mut gathered = self;
        for mark in &sheet.marks[self.next..sheet.mark_count] {
            if mark.time as usize != at {
                break;
            }
            gathered = gathered.with_mark(*mark);
        }
        gathered
    }

    // On to the next slot: darkness does not end.
    pub fn slot_over(self) -> Gathered
        ensures { result ≡ slot_over self }
    {
        Gathered {
            send: 0,
            receive: 0,
            ..self
        }
    }

    // A dark seat has a send mark in its own slots and a receive mark in all others.
    pub fn given_by(self, owner: usize) -> SlotMarks
        ensures { result ≡ given_by self owner }
    {
        SlotMarks {
            send: seats::has(self.send | self.dark, owner),
            receive: seats::without(self.receive | self.dark, owner),
        }
    }
}
