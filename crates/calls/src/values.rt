// Values: writing their pages, their cells, reading and deleting.
//
// Writing, reading and deleting are inlined into the function of the C interface above them, and so are the operations below: each has its page size
// as a constant there. With one body for two page sizes a small value takes up to a fifth longer.
ghost use Rattle.std.specs.Prelude.{[], ◌∷◌};
ghost use Rattle.overflow.specs.Totals.{total_by};
ghost use Rattle.calls.specs.Values.{WritesPageBy, EncodesCell, DecodesCell, ReadsValue, DeletesValue};

use crate::told::{Told, report, status};
use overflow::cell::ValueCounts;
use overflow::chunk::chunk;
use overflow::delete::delete;
use overflow::read::read;
use overflow::total::TotalRule;
use page::size::PageSize;
use page::store::Store;

impl Told for ValueCounts {
    ghost values = { λ v. v.size ∷ v.numbers ∷ [] };

    fn tell(self, out: &mut [u64; 8]) {
        out[0] = self.size as u64;
        out[1] = self.numbers as u64;
    }
}

// How many numbers were found.
impl Told for usize {
    ghost values = { λ n. n ∷ [] };

    fn tell(self, out: &mut [u64; 8]) {
        out[0] = self as u64;
    }
}

// Writes page `index` of a value, which has as many pages as the rule says, to the start of the page buffer.
#[inline(always)]
pub fn write_value_page(
    page_size: PageSize,
    rule: TotalRule,
    value: &[u8],
    numbers: &[u32],
    index: u64,
    page: &mut [u8],
) -> u32
    ensures { WritesPageBy (total_by rule) page_size value numbers index page result }
{
    status(chunk(page_size, rule, value, numbers, index as usize, page))
}

// Writes a cell to the start of the cell buffer: its size, hash and numbers.
pub fn encode_cell(
    page_size: PageSize,
    size: u64,
    hash: &[u8; 32],
    numbers: &[u32],
    buffer: &mut [u8],
) -> u32
    ensures { EncodesCell page_size size hash numbers buffer result }
{
    status(overflow::cell::encode_cell(page_size, size, hash, numbers, buffer))
}

// out: size, count of numbers.
pub fn decode_cell(page_size: PageSize, cell: &[u8], hash: &mut [u8; 32], out: &mut [u64; 8]) -> u32
    ensures { DecodesCell page_size cell hash out result }
{
    report(overflow::cell::decode_cell(page_size, cell, hash), out)
}

// out: size, numbers found. Refusals 14, 15, 16 and 25: the index in the walk.
#[inline(always)]
pub fn read_value(
    page_size: PageSize,
    cell: &[u8],
    store: &[u8],
    numbers: &mut [u32],
    value: &mut [u8],
    out: &mut [u64; 8],
) -> u32
    ensures { ReadsValue page_size cell store numbers value out result }
{
    report(
        read(&Store::new(page_size, store), cell, numbers, value),
        out,
    )
}

// out: numbers found. Refusals 15, 16 and 25: the index in the walk.
#[inline(always)]
pub fn delete_value(
    page_size: PageSize,
    cell: &[u8],
    store: &[u8],
    numbers: &mut [u32],
    out: &mut [u64; 8],
) -> u32
    ensures { DeletesValue page_size cell store numbers out result }
{
    report(delete(&Store::new(page_size, store), cell, numbers), out)
}
