// What C and Rust call: the page of a sheet, under a plain name.
#![tactic(auto)]

ghost use Rattle.sheet_page.specs.Promise.{CallPromise};

// Run a sheet and print it into the buffer: the page's length, or 0, for C, where the buffer is too short
// for it.
#[unsafe(no_mangle)]
pub extern "C" fn knellnettle_page(sheet: &[u8], page: &mut [u8]) -> usize
    ensures { CallPromise sheet.now page.old result page.new }
{
    sheet_page::page(sheet, page).unwrap_or(0)
}
