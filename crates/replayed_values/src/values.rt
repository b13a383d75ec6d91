// Values: writing their pages and cells, reading and deleting them.
ghost use Rattle.std.specs.Prelude.{OnOk};
ghost use Rattle.replayed_values.specs.Taken.{TakesAtLeast};

use crate::pages::{NONE_PENDING, agrees, page_size};
use arrayvec::ArrayVec;
use calls::values;
use lookup::lookup::lookup;
use overflow::page_ref::ValuePageRef;
use overflow::total::TotalRule;
use page::number::PageNumber;
use page::size::PageSize;
use page::store::Store;
use record_line::fault::{Fault, WrongLine};
use record_line::fields::{BLANK_OUT, FILLER, Fields};

// page size, index, value[] numbers[], the length of the page | status page
pub fn write_page(fields: &mut Fields<'_>) -> Result<(), Fault>
    ensures { OnOk result (TakesAtLeast 6 fields.old fields.new) }
{
    write_page_by(fields, TotalRule::New)
}

// The same of a value that is written by the old total.
pub fn write_old_page(fields: &mut Fields<'_>) -> Result<(), Fault>
    ensures { OnOk result (TakesAtLeast 6 fields.old fields.new) }
{
    write_page_by(fields, TotalRule::Old)
}

fn write_page_by(fields: &mut Fields<'_>, rule: TotalRule) -> Result<(), Fault>
    ensures { OnOk result (TakesAtLeast 6 fields.old fields.new) }
{
    let page_size = page_size(fields)?;
    let index = fields.number()?;
    let mut value = ArrayVec::new();
    fields.array_into(&mut value)?;
    let mut numbers = ArrayVec::new();
    fields.array_into(&mut numbers)?;
    let mut page = ArrayVec::new();
    fields.blank_into(&mut page)?;
    let status = values::write_value_page(page_size, rule, &value, &numbers, index, &mut page);
    Ok(fields.expect_reply(status, &page)?)
}

// size, hash[] of 32 bytes, numbers[], the length of the cell | status cell
pub fn encode_cell(fields: &mut Fields<'_>) -> Result<(), Fault>
    ensures { OnOk result (TakesAtLeast 37 fields.old fields.new) }
{
    let size = fields.number()?;
    let mut hash = ArrayVec::new();
    fields.array_into::<u8>(&mut hash)?;
    let mut numbers = ArrayVec::new();
    fields.array_into(&mut numbers)?;
    let mut cell = ArrayVec::new();
    fields.blank_into(&mut cell)?;
    let hash = hash.as_array().ok_or(WrongLine)?;
    let status = values::encode_cell(PageSize::standard(), size, hash, &numbers, &mut cell);
    Ok(fields.expect_reply(status, &cell)?)
}

// cell[] | status out hash
pub fn decode_cell(fields: &mut Fields<'_>) -> Result<(), Fault>
    ensures { OnOk result (TakesAtLeast 42 fields.old fields.new) }
{
    let mut cell = ArrayVec::new();
    fields.array_into(&mut cell)?;
    let mut hash = [FILLER; 32];
    let mut out = BLANK_OUT;
    let status = values::decode_cell(PageSize::standard(), &cell, &mut hash, &mut out);
    fields.expect_reply(status, &out)?;
    Ok(fields.expect(&hash)?)
}

// page size, cell[] store[], the lengths of the numbers and of the value | status out numbers value
pub fn read_value(fields: &mut Fields<'_>) -> Result<(), Fault>
    ensures { OnOk result (TakesAtLeast 14 fields.old fields.new) }
{
    let page_size = page_size(fields)?;
    let mut cell = ArrayVec::new();
    fields.array_into(&mut cell)?;
    let mut store = ArrayVec::new();
    fields.array_into(&mut store)?;
    let mut numbers = ArrayVec::new();
    fields.blank_into(&mut numbers)?;
    let mut value = ArrayVec::new();
    fields.blank_into(&mut value)?;
    let mut out = BLANK_OUT;
    let status = values::read_value(page_size, &cell, &store, &mut numbers, &mut value, &mut out);
    if status == 0 {
        let first = *numbers.first().ok_or(WrongLine)?;
        let page = lookup(
            &Store::new(page_size, &store),
            &NONE_PENDING,
            PageNumber(first),
        );
        WrongLine::unless(are_behind_cell(page, &numbers, &cell))?;
    }
    fields.expect_reply(status, &out)?;
    fields.expect(&numbers)?;
    Ok(fields.expect(&value)?)
}

// Whether the numbers on the first page of a value stand in the table behind those of its cell, which has 40 bytes before its own.
fn are_behind_cell(page: &[u8], numbers: &[u32], cell: &[u8]) -> bool {
    let page = ValuePageRef::new(page);
    let in_cell = cell.len().saturating_sub(40) / 4;
    let with_page = in_cell + usize::from(page.number_count());
    in_cell != 0
        && numbers
            .get(in_cell..with_page)
            .is_some_and(|behind| agrees(behind, |i| page.number(i).0))
}

// page size, cell[] store[], the length of the numbers | status out numbers
pub fn delete_value(fields: &mut Fields<'_>) -> Result<(), Fault>
    ensures { OnOk result (TakesAtLeast 13 fields.old fields.new) }
{
    let page_size = page_size(fields)?;
    let mut cell = ArrayVec::new();
    fields.array_into(&mut cell)?;
    let mut store = ArrayVec::new();
    fields.array_into(&mut store)?;
    let mut numbers = ArrayVec::new();
    fields.blank_into(&mut numbers)?;
    let mut out = BLANK_OUT;
    let status = values::delete_value(page_size, &cell, &store, &mut numbers, &mut out);
    fields.expect_reply(status, &out)?;
    Ok(fields.expect(&numbers)?)
}
