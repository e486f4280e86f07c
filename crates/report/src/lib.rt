// The printed page of what a run leaves, as document 01 says under 'What the program prints'.
#![tactic(auto)]

ghost use Rattle.std.specs.Prelude.{◌≡◌};
ghost use Rattle.report.specs.Promise.{no_page, PrintPromise};

use run::Ran;
use text::Lent;

mod lines; // lines.rt: the lines of the page
mod sections; // sections.rt: its sections

// The most bytes in the line of a record, and in all the rest of a page.
const RECORD_MOST: usize = 20;

const REST_MOST: usize = 1024;
// No page is longer than so many bytes.
pub const PAGE_MOST: usize = RECORD_MOST * limits::ROOM_MOST + REST_MOST;

// An empty buffer that has room for any page.
#[tactic(auto, unfolding(crate::specs::Promise::no_page))]
pub fn no_page() -> [u8; PAGE_MOST]
    ensures { result ≡ no_page }
{
    [0u8; PAGE_MOST]
}

// Print what a run leaves into the buffer: the page's length, or nothing where the buffer is too short for it.
pub fn print(ran: Ran, trail: &[u8], page: &mut [u8]) -> Option<usize>
    ensures { PrintPromise ran trail.now page.old result page.new }
{
    let mut lent = Lent::new(page);
    sections::whole_page(&mut lent, &ran, trail);
    lent.written()
}
