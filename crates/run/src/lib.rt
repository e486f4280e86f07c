// A sheet run: its marks slot by slot, the bus compared, the ring stepped, the trail written.
#![tactic(auto)]

ghost use Rattle.std.specs.Prelude.{◌≡◌};
ghost use Rattle.ring.specs.Refusals.{verdict_found};
ghost use Rattle.sheet.specs.Good.{GoodSheet};
ghost use Rattle.run.specs.Outcome.{heard, ran};
ghost use Rattle.run.specs.Run.{heard_as, run_sheet, RunPromise};
ghost use Rattle.turn.specs.Turn.{spoken_by};
ghost use Rattle.run.specs.Inside.{Ended, Leaves};

use limits::Refused;
use marks::Gathered;
use ring::{Ring, Verdict};
use sheet::Sheet;

mod marks; // marks.rt: which marks a slot has

// What the owners spoke, compared with what the bus recorder heard. No Option, as for `Verdict`: the page has a
// word for each.
#[derive(Clone, Copy)]
pub enum Bus {
    Agrees,
    Differs(u16),
}

// What a run shows that came to its end or to the first difference.
#[derive(Clone, Copy)]
pub struct Shown {
    pub bus: Bus,
    pub verdict: Result<Verdict, Refused>,
}

// What the run shows, or why it is refused; the ring after the last step taken, and the module number of each
// seat: a run that is refused has them too, as document 01 says, and past the last seat the number is zero.
#[derive(Clone, Copy)]
pub struct Ran {
    pub answer: Result<Shown, Refused>,
    pub ring: Ring,
    pub modules: [u16; limits::SEATS_MOST],
}

// What the bus recorder should hear of an owner with this set and acknowledgement: the byte that a sheet has for
// it.
fn spoken(owner: usize, set: u32, ack: bool, send: bool) -> u8
    ensures { result ≡ heard_as (spoken_by owner set ack send) }
{
    match turn::speak(owner, set, ack, send) {
        None => sheet_lines::HEARD_SILENCE,
        Some(true) => sheet_lines::HEARD_ONE,
        Some(false) => sheet_lines::HEARD_ZERO,
    }
}

// A run that ends with this ring: what the bus showed, and the verdict. Ring and modules are two fields of it.
fn judged(bus: Bus, ring: Ring, modules: [u16; limits::SEATS_MOST]) -> Ran
    ensures { Ended (ran (heard bus) (verdict_found ring)) ring modules result }
{
    let shown = Shown {
        bus,
        verdict: ring.verdict().verdict,
    };
    Ran {
        answer: Ok(shown),
        ring,
        modules,
    }
}

// A fresh ring through all the slots of a sheet: nothing of the sheet is copied in a slot, and the ring no more than
// the step does.
fn through(sheet: &Sheet, trail: &mut [u8]) -> Ran
    requires { GoodSheet sheet.now }
    ensures { Leaves (run_sheet sheet.now trail.old) result trail.new }
{
    let modules = sheet.modules;
    let mut stepped = Ring::zero().fresh(sheet.n);
    let mut gathered = Gathered::none();
    for at in 0..sheet.slot_count {
        let whole = gathered.with_slot(sheet, at);
        let owner = at % sheet.n;
        let given = whole.given_by(owner);
        let ring = &stepped.ring;
        if spoken(owner, ring.sets[owner], ring.acks[owner], given.send) != sheet.slots[at] {
            return judged(Bus::Differs(at as u16), stepped.ring, modules);
        }
        stepped = stepped.ring.step(given.send, given.receive, trail);
        if let Err(refused) = stepped.answer {
            return Ran {
                answer: Err(refused),
                ring: stepped.ring,
                modules,
            };
        }
        gathered = whole.slot_over();
    }
    judged(Bus::Agrees, stepped.ring, modules)
}

// Read the sheet and run it. A refused sheet takes no step, leaves the trail and gives the zero ring.
pub fn run(bytes: &[u8], trail: &mut [u8]) -> Ran
    ensures { RunPromise bytes.now trail.old result trail.new }
{
    let reading = sheet::read(bytes);
    match reading.answer {
        Ok(()) => through(&reading.sheet, trail),
        Err(refused) => Ran {
            answer: Err(refused),
            ring: Ring::zero(),
            modules: reading.sheet.modules,
        },
    }
}
