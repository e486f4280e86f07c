// The page of a sheet: an empty trail is lent, the sheet is run, and what the run leaves is printed.
#![tactic(auto)]

ghost use Rattle.sheet_page.specs.Promise.{PagePromise};

// Run a sheet and print it into the buffer: the page's length, or nothing where the buffer is too short for it.
pub fn page(sheet: &[u8], page: &mut [u8]) -> Option<usize>
    ensures { PagePromise sheet.now page.old result page.new }
{
    let mut trail = trail::empty();
    let ran = run::run(sheet, &mut trail);
    report::print(ran, &trail, page)
}
