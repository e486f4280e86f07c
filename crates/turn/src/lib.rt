// What one seat makes of a slot: who speaks, what the seat sees of it, what it decides, and the seat after it.
#![tactic(auto)]

ghost use Rattle.std.specs.Prelude.{◌≡◌};
ghost use Rattle.turn.specs.Table.{count_of};
ghost use Rattle.turn.specs.Turn.{spoken_by, view_of, fault_after, owner_turn, other_turn, turn_of};

pub mod calm; // calm.rt: the seats that are seen at once to keep all that they have
mod table; // table.rt: the table, and whom a removal takes

// What one seat sees of a slot.
#[derive(Clone, Copy)]
pub enum View {
    Silent,
    Missed,
    Heard(bool),
}

// Why a seat is removed: the letters of document 002, and e for its footnote 4. As a number each is its letter
// in ASCII.
#[derive(Clone, Copy)]
pub enum Cause {
    A = b'a' as isize,
    B = b'b' as isize,
    C = b'c' as isize,
    D = b'd' as isize,
    E = b'e' as isize,
}

// Whom a seat removes from its set, each with its cause: itself before the owner.
#[derive(Clone, Copy)]
pub enum Removal {
    Nobody,
    Itself(Cause),
    Owner(Cause),
    Both(Cause, Cause),
}

// What a seat decides, beside the view that it decides from.
#[derive(Clone, Copy)]
pub struct Decision {
    pub view: View,
    pub removal: Removal,
    pub ack: bool,
}

// What all seats share in a slot: its time, the owner and the bit that it speaks, if any, and the marks.
#[derive(Clone, Copy)]
pub struct Slot {
    pub time: u16,
    pub owner: usize,
    pub spoken: Option<bool>,
    pub send: bool,
    pub receive: u32,
}

// One seat of a ring, with the time of its first fault, if it has had one.
#[derive(Clone, Copy)]
pub struct Seat {
    pub set: u32,
    pub ack: bool,
    pub doubt: bool,
    pub fault: Option<u16>,
}

// A seat after the slot, and whom it removed.
#[derive(Clone, Copy)]
pub struct Turn {
    pub seat: Seat,
    pub removal: Removal,
}

// What an owner with this set and acknowledgement speaks: its acknowledgement, and nothing where it is not in
// its own set or has a send mark. No whole seat is asked for: doubt and first fault play no part.
pub fn speak(owner: usize, set: u32, ack: bool, send: bool) -> Option<bool>
    ensures { result ≡ spoken_by owner set ack send }
{
    (seats::has(set, owner) && !send).then_some(ack)
}

// What a seat that expects the owner sees.
fn view_of(slot: Slot, p: usize) -> View
    ensures { result ≡ view_of slot p }
{
    match slot.spoken {
        None => View::Silent,
        Some(_) if seats::has(slot.receive, p) => View::Missed,
        Some(bit) => View::Heard(bit),
    }
}

// The first fault: that of the first mark that took hold.
fn fault_after(held: bool, time: u16, fault: Option<u16>) -> Option<u16>
    ensures { result ≡ fault_after held time fault }
{
    fault.or(held.then_some(time))
}

fn owner_turn(slot: Slot, s: Seat) -> Turn
    ensures { result ≡ owner_turn slot s }
{
    Turn {
        seat: Seat {
            set: s.set,
            ack: true,
            doubt: !s.ack,
            fault: fault_after(slot.send, slot.time, s.fault),
        },
        removal: Removal::Nobody,
    }
}

fn other_turn(slot: Slot, p: usize, s: Seat) -> Turn
    ensures { result ≡ other_turn slot p s }
{
    let Decision { view, removal, ack } = table::decide(view_of(slot, p), s.ack, s.doubt);
    let is_missed = matches!(view, View::Missed);
    Turn {
        seat: Seat {
            set: table::after_removal(s.set, p, slot.owner, removal),
            ack,
            doubt: false,
            fault: fault_after(is_missed, slot.time, s.fault),
        },
        removal,
    }
}

// How many seats a removal takes from a set.
pub fn count_of(removal: Removal) -> usize
    ensures { result ≡ count_of removal }
{
    match removal {
        Removal::Nobody => 0,
        Removal::Itself(_) | Removal::Owner(_) => 1,
        Removal::Both(_, _) => 2,
    }
}

// Seat p in the slot. One that is out, or does not have the owner in its set, changes nothing.
#[tactic(auto, unfolding(crate::specs::Turn::turn_of))]
pub fn turn_of(slot: Slot, p: usize, s: Seat) -> Turn
    ensures { result ≡ turn_of slot p s }
{
    let still = Turn {
        seat: s,
        removal: Removal::Nobody,
    };
    if !seats::has(s.set, p) {
        still
    } else if p == slot.owner {
        owner_turn(slot, s)
    } else if seats::has(s.set, slot.owner) {
        other_turn(slot, p, s)
    } else {
        still
    }
}
