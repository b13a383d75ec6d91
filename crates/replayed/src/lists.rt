// Reading a list, handing out and finishing, at the page size that comes first in each line.
ghost use Rattle.std.specs.Prelude.{OnOk};
ghost use Rattle.replayed_values.specs.Taken.{TakesAtLeast};

use arrayvec::ArrayVec;
use calls::saves;
use free_list::page_ref::FreeListPageRef;
use lookup::lookup::lookup;
use page::number::PageNumber;
use page::size::PageSize;
use page::store::Store;
use record_line::fault::{Fault, WrongLine};
use record_line::fields::{BLANK_OUT, Fields};
use replayed_values::pages::{NONE_PENDING, agrees, page_size};

// size head store[], the lengths of both tables and of the map | status out pages entries map
pub fn read_list(fields: &mut Fields<'_>) -> Result<(), Fault>
    ensures { OnOk result (TakesAtLeast 15 fields.old fields.new) }
{
    let page_size = page_size(fields)?;
    let head = fields.number()?;
    let mut store = ArrayVec::new();
    fields.array_into(&mut store)?;
    let mut pages = ArrayVec::new();
    fields.blank_into(&mut pages)?;
    let mut entries = ArrayVec::new();
    fields.blank_into(&mut entries)?;
    let mut map = ArrayVec::new();
    fields.blank_into(&mut map)?;
    let mut out = BLANK_OUT;
    let status = calls::lists::read_list(
        page_size,
        &store,
        head,
        &mut pages,
        &mut entries,
        &mut map,
        &mut out,
    );
    if status == 0 && head != 0 {
        let page = lookup(
            &Store::new(page_size, &store),
            &NONE_PENDING,
            PageNumber(head),
        );
        WrongLine::unless(are_last(page, &entries, out[1]))?;
    }
    fields.expect_reply(status, &out)?;
    fields.expect(&pages)?;
    fields.expect(&entries)?;
    Ok(fields.expect(&map)?)
}

// Whether the entries of a page are the last ones of the first `listed` places of the table.
fn are_last(page: &[u8], entries: &[u32], listed: u64) -> bool {
    let page = FreeListPageRef::new(page);
    let listed = listed as usize;
    let Some(first) = listed.checked_sub(usize::from(page.item_count())) else {
        return false;
    };
    entries
        .get(first..listed)
        .is_some_and(|last| agrees(last, |i| page.item(i).0))
}

// The page size and the open save.
#[derive(Drop)]
struct Opened {
    page_size: PageSize,
    bump: u32,
    length: u32,
    pages: u64,
    entries: u64,
    count: u64,
}

impl Opened {
    // size bump length P L, the count
    fn take(fields: &mut Fields<'_>) -> Result<Opened, WrongLine>
        ensures { OnOk result (TakesAtLeast 6 fields.old fields.new) }
    {
        Ok(Opened {
            page_size: page_size(fields)?,
            bump: fields.number()?,
            length: fields.number()?,
            pages: fields.number()?,
            entries: fields.number()?,
            count: fields.number()?,
        })
    }
}

// an open save, pages[] entries[] | status out
pub fn hand_out(fields: &mut Fields<'_>) -> Result<(), Fault>
    ensures { OnOk result (TakesAtLeast 17 fields.old fields.new) }
{
    let save = Opened::take(fields)?;
    let mut pages = ArrayVec::new();
    fields.array_into(&mut pages)?;
    let mut entries = ArrayVec::new();
    fields.array_into(&mut entries)?;
    let mut out = BLANK_OUT;
    let status = saves::hand_out(
        save.page_size,
        save.bump,
        save.length,
        save.pages,
        save.entries,
        save.count,
        &pages,
        &entries,
        &mut out,
    );
    Ok(fields.expect_reply(status, &out)?)
}

// an open save, pages[] entries[] freed[], the lengths of the buffer, of its numbers and of the map | status out pages entries buffer numbers map
pub fn finish(fields: &mut Fields<'_>) -> Result<(), Fault>
    ensures { OnOk result (TakesAtLeast 21 fields.old fields.new) }
{
    let save = Opened::take(fields)?;
    let mut pages = ArrayVec::new();
    fields.array_into(&mut pages)?;
    let mut entries = ArrayVec::new();
    fields.array_into(&mut entries)?;
    let mut freed = ArrayVec::new();
    fields.array_into(&mut freed)?;
    let mut buffer = ArrayVec::new();
    fields.blank_into(&mut buffer)?;
    let mut numbers = ArrayVec::new();
    fields.blank_into(&mut numbers)?;
    let mut map = ArrayVec::new();
    fields.blank_into(&mut map)?;
    let mut out = BLANK_OUT;
    let status = saves::finish(
        save.page_size,
        save.bump,
        save.length,
        save.pages,
        save.entries,
        save.count,
        &mut pages,
        &mut entries,
        &freed,
        &mut buffer,
        &mut numbers,
        &mut map,
        &mut out,
    );
    fields.expect_reply(status, &out)?;
    fields.expect(&pages)?;
    fields.expect(&entries)?;
    fields.expect(&buffer)?;
    fields.expect(&numbers)?;
    Ok(fields.expect(&map)?)
}
