// Page lookup: among the pending pages of a save, and in the store.
ghost use Rattle.std.specs.Prelude.{OnOk};
ghost use Rattle.replayed_values.specs.Taken.{TakesAtLeast};

use arrayvec::ArrayVec;
use lookup::find::Pending;
use page::number::PageNumber;
use page::store::Store;
use record_line::fault::{Fault, WrongLine};
use record_line::fields::{BLANK_OUT, Fields};
use replayed_values::pages::page_size;

// page size, page, numbers[] pending[] store[] | status out
pub fn lookup(fields: &mut Fields<'_>) -> Result<(), Fault>
    ensures { OnOk result (TakesAtLeast 14 fields.old fields.new) }
{
    let page_size = page_size(fields)?;
    let number = fields.number()?;
    let mut numbers = ArrayVec::new();
    fields.array_into(&mut numbers)?;
    let mut pending = ArrayVec::new();
    fields.array_into(&mut pending)?;
    let mut store = ArrayVec::new();
    fields.array_into(&mut store)?;
    let mut out = BLANK_OUT;
    let status = calls::lookups::lookup(page_size, &numbers, &pending, &store, number, &mut out);
    let page = lookup::lookup::lookup(
        &Store::new(page_size, &store),
        &Pending {
            numbers: &numbers,
            pages: &pending,
        },
        PageNumber(number),
    );
    // Status and places are numbers here, as the recorded lines have those of the C interface.
    WrongLine::unless(match status {
        0 if out[0] == 0 => is_part(page, &pending, out[1]),
        0 => is_part(page, &store, out[1]),
        _ => page.is_empty(),
    })?;
    Ok(fields.expect_reply(status, &out)?)
}

// Whether a page stands in the slice at byte `at`.
fn is_part(page: &[u8], slice: &[u8], at: u64) -> bool {
    !page.is_empty()
        && slice
            .get(at as usize..)
            .is_some_and(|rest| rest.starts_with(page))
}
