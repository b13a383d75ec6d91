// Writing a value: one page a call, with the numbers of all its pages lent.
ghost use Rattle.std.specs.Prelude.{◌≡◌, ◌+◌, ◌<◌, ◌≤◌, length};
ghost use Rattle.std.proofs.lemmas.List.Edits.{sets};
ghost use Rattle.refusal.specs.Effect.{effect};
ghost use Rattle.refusal.specs.Stored.{written_outcome};
ghost use Rattle.overflow.specs.Totals.{max_size, total_by};
ghost use Rattle.overflow.specs.Layout.{numbers_before, bytes_before};
ghost use Rattle.overflow.specs.ValuePages.{value_page, chunk_into};

use crate::total::{
    MAX_OVERFLOW_CELL_NODE_POINTERS, TotalRule, max_overflow_value_size, total_needed_pages,
};
use crate::value_page::encode_value_page;
use page::size::PageSize;
use refusal::Refusal;

// Writes page `index` of a value, which has as many pages as the rule says, to the start of the page buffer, and answers how many bytes it has. After
// a refusal the buffer is as it was. The index counts the value's pages, and is no place in one of the slices. Inlined for the page size, as
// in `calls`.
#[inline(always)]
pub fn chunk(
    page_size: PageSize,
    rule: TotalRule,
    value: &[u8],
    numbers: &[u32],
    index: usize,
    page: &mut [u8],
) -> Result<usize, Refusal>
    ensures { effect (written_outcome result) page.new ≡ chunk_into page_size (total_by rule page_size (length value.now)) value.now numbers.now index page.old }
{
    let size = value.len();
    if size == 0 || max_overflow_value_size(page_size) < size {
        return Err(Refusal::Size);
    }
    let totals = total_needed_pages(page_size, size);
    let total = rule.of(totals);
    if numbers.len() != total || total <= index {
        return Err(Refusal::Index);
    }
    let page_bytes = page_size.bytes();
    if page.len() < page_bytes {
        return Err(Refusal::Buffer);
    }
    write_page(page_size, value, numbers, index, page);
    Ok(page_bytes)
}

// Makes page `index` of a value that has as many pages as numbers are lent, at the start of the buffer: its part of the numbers past
// the cell's, and its part of the bytes. Inlined as `chunk` is.
#[inline(always)]
fn write_page(page_size: PageSize, value: &[u8], numbers: &[u32], index: usize, page: &mut [u8])
    requires few { length numbers.now ≤ max_size page_size + 4 }
    requires inside { index < length numbers.now }
    requires room { page_size ≤ length page.old }
    ensures { page.new ≡ sets page.old 0 (value_page page_size (length numbers.now) value.now numbers.now index) }
{
    let page_bytes = page_size.bytes();
    let total = numbers.len();
    let cell = total.min(MAX_OVERFLOW_CELL_NODE_POINTERS);
    let from = numbers_before(page_size, total, index);
    let to = numbers_before(page_size, total, index + 1);
    let start = bytes_before(page_size, total, value.len(), index);
    let end = bytes_before(page_size, total, value.len(), index + 1);
    encode_value_page(
        &numbers[cell + from..cell + to],
        &value[start..end],
        &mut page[..page_bytes],
    );
}

// How many of the numbers past the cell's stand on the pages before page `index` of `total`: as many as their bodies hold. `few`, here and where
// else it is asked, bounds the products: no value has more pages.
fn numbers_before(page_size: PageSize, total: usize, index: usize) -> usize
    requires few { total ≤ max_size page_size + 4 }
    requires upto { index ≤ total }
    ensures { result ≡ numbers_before page_size total index }
{
    let most = (page_size.bytes() - 4) / 4;
    let past = total.saturating_sub(MAX_OVERFLOW_CELL_NODE_POINTERS);
    past.min(most * index)
}

// How many of the value's bytes stand on those pages: as many as the numbers there leave room for.
fn bytes_before(page_size: PageSize, total: usize, size: usize, index: usize) -> usize
    requires few { total ≤ max_size page_size + 4 }
    requires upto { index ≤ total }
    ensures { result ≡ bytes_before page_size total size index }
{
    let body = page_size.bytes() - 4;
    size.min(body * index - 4 * numbers_before(page_size, total, index))
}
