// The seats that are seen at once to keep all that they have, so that a step passes over them: in most slots
// nearly all.
ghost use Rattle.std.specs.Prelude.{◌≡◌};
ghost use Rattle.turn.specs.Calm.{calm_in, keeps_all};

use crate::{Seat, Slot};

// A slot in which every seat that expects the owner hears true.
pub fn is_calm(slot: Slot) -> bool
    ensures { result ≡ calm_in slot }
{
    slot.spoken == Some(true) && slot.receive == 0
}

// Whether seat p is seen at once to keep all that it has: it is not the owner, and either hears true in a calm
// slot with its acknowledgement true and no doubt, or does not expect the owner.
pub fn keeps_all(calm: bool, p: usize, s: Seat, owner: usize) -> bool
    ensures { result ≡ keeps_all calm s.set s.ack s.doubt p owner }
{
    p != owner && ((calm && s.ack && !s.doubt) || !seats::has(s.set, owner))
}
