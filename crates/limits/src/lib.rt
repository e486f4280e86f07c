// The limits of document 01, and the reasons for which it refuses, each once.
#![tactic(auto)]

ghost use Rattle.std.specs.Prelude.{◌≡◌};
ghost use Rattle.limits.specs.Refusals.{number_of, refused_at};

// A ring has 2 to 32 seats.
pub const SEATS_LEAST: usize = 2;

pub const SEATS_MOST: usize = 32;
// A run has at most 4,096 slots.
pub const SLOTS_MOST: usize = 4096;
// A trail has room for at most 1,024 records.
pub const ROOM_MOST: usize = 1024;
// A sheet has at most 256 marks, and module numbers up to 65,535.
pub const MARKS_MOST: usize = 256;

pub const MODULE_MOST: usize = 65535;

// Why something is refused. The numbers are document 01's.
#[derive(Clone, Copy)]
pub enum Refusal {
    EndsEarly = 1,
    WrongByte = 2,
    OutsideLimits = 3,
    ModuleTwice = 4,
    MarkNotAbove = 5,
    WrongMark = 6,
    BytesAfter = 7,
    NoRoom = 8,
    AtTheEnd = 9,
    NotARing = 10,
}

// What is refused: why, and at which place.
#[derive(Clone, Copy)]
pub struct Refused {
    pub why: Refusal,
    pub place: usize,
}

impl Refusal {
    // The number that document 01 gives it.
    pub fn number(self) -> u8
        ensures { result ≡ number_of self }
    {
        self as u8
    }

    // It, given at this place.
    pub fn at(self, place: usize) -> Refused
        ensures { result ≡ refused_at self place }
    {
        Refused { why: self, place }
    }
}
