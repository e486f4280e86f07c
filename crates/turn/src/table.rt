// The table of document 01: what a seat that expects the owner decides, and whom that takes from its set.
ghost use Rattle.std.specs.Prelude.{◌≡◌};
ghost use Rattle.turn.specs.Table.{decided, gone_by, without_all};

use crate::{Cause, Decision, Removal, View};

// The table, row by row, for what a seat sees and its own bits before the step: who is removed, with the cause,
// and the new acknowledgement. A bit that is not heard did not arrive.
pub fn decide(view: View, ack: bool, doubt: bool) -> Decision
    ensures { result ≡ decided view ack doubt }
{
    let (removal, ack) = match (view, ack, doubt) {
        (View::Heard(true), true, _) => (Removal::Nobody, true),
        (View::Heard(true), false, _) => (Removal::Itself(Cause::B), true),
        (View::Heard(false), true, false) => (Removal::Owner(Cause::D), false),
        (View::Heard(false), true, true) => (Removal::Itself(Cause::E), false),
        (View::Heard(false), false, _) => (Removal::Nobody, true),
        (View::Silent | View::Missed, true, _) => (Removal::Owner(Cause::C), false),
        (View::Silent | View::Missed, false, _) => (Removal::Both(Cause::A, Cause::C), false),
    };
    Decision { view, removal, ack }
}

// The set of p after its removal in the slot of b.
pub fn after_removal(set: u32, p: usize, b: usize, removal: Removal) -> u32
    ensures { result ≡ without_all set (gone_by p b removal) }
{
    match removal {
        Removal::Nobody => set,
        Removal::Itself(_) => seats::without(set, p),
        Removal::Owner(_) => seats::without(set, b),
        Removal::Both(_, _) => seats::without(seats::without(set, p), b),
    }
}
