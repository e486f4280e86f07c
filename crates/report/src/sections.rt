// The page's sections, each after its count, and the page made of them.
ghost use Rattle.std.specs.Prelude.{true, ℕ, List, ◌<◌, ◌≡◌, ◌+◌, ◌*◌};
ghost use Rattle.ring.specs.Refusals.{found};
ghost use Rattle.run.specs.Outcome.{heard};
ghost use Rattle.report.specs.Page.{section, bus_line, printable, ran_page, page_of, result_of};
ghost use Rattle.report.specs.Promise.{page_most};
ghost use Rattle.report.specs.Inside.{count_most, up_to_faults, up_to_faults_most, Writes, WritesEach};

use crate::lines;
use limits::Refusal;
use run::{Bus, Ran, Shown};
use text::Lent;

// A section: its lines after their count.
fn section<F: Fn(&mut Lent<'_>, usize)>(page: &mut Lent<'_>, count: u16, line: F)
    requires { (x : _) (k : ℕ) → k < count → F.pre line x k }
    ensures { (text : ℕ → List ℕ) (most : ℕ) → WritesEach (F.post line) count text most
        → Writes (section count text) (count_most + most * count) page.old page.new }
{
    lines::count_line(page, count);
    for k in 0..usize::from(count) {
        line(page, k);
    }
}

// The first two sections, and of the verdict its count and its first line.
fn up_to_faults(page: &mut Lent<'_>, ran: &Ran, trail: &[u8], bus: Bus)
    requires { printable (result_of ran.now trail.now) ≡ true }
    ensures { Writes (up_to_faults (result_of ran.now trail.now) (bus_line (heard bus))) up_to_faults_most page.old page.new }
{
    section(
        page,
        ran.ring.records,
        |page, k| lines::record_line(page, ran, trail, k),
    );
    section(
        page,
        ran.ring.n as u16,
        |page, p| lines::seat_line(page, ran, p),
    );
    lines::count_line(page, 2);
    lines::bus_line(page, bus);
}

// No more seats than a ring can have, and all the records in the trail. What a run leaves is so; a value of the
// same type that no run gives need not be.
fn printable(ran: &Ran, trail: &[u8]) -> bool
    ensures { result ≡ printable (result_of ran.now trail.now) }
{
    ran.ring.n <= limits::SEATS_MOST
        && usize::from(ran.ring.records) <= trail::room_for(trail.len())
}

// The page of a run with its two verdicts. One that is refused, which no run gives, prints as a refusal does.
fn ran_page(page: &mut Lent<'_>, ran: &Ran, trail: &[u8], shown: Shown)
    ensures { Writes (ran_page (result_of ran.now trail.now) (heard shown.bus) (found shown.verdict)) page_most page.old page.new }
{
    match shown.verdict {
        Err(refused) => lines::refused_line(page, refused),
        Ok(verdict) if printable(ran, trail) => {
            up_to_faults(page, ran, trail, shown.bus);
            lines::faults_line(page, verdict);
        }
        Ok(_) => lines::refused_line(page, Refusal::NotARing.at(0)),
    }
}

// The whole page of a run.
pub fn whole_page(page: &mut Lent<'_>, ran: &Ran, trail: &[u8])
    ensures { Writes (page_of (result_of ran.now trail.now)) page_most page.old page.new }
{
    match ran.answer {
        Ok(shown) => ran_page(page, ran, trail, shown),
        Err(refused) => lines::refused_line(page, refused),
    }
}
