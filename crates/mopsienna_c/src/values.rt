// Values: writing their pages, their cells, reading and deleting.
ghost use Rattle.page.specs.PageSize.{standard_page_size};
ghost use Rattle.calls.specs.Values.{WritesPage, EncodesCell, DecodesCell, ReadsValue, DeletesValue};

use overflow::total::TotalRule;
use page::size::PageSize;

// Writes page `index` of a value to the start of the page buffer.
#[unsafe(no_mangle)]
pub extern "C" fn mopsienna_write_value_page(
    value: &[u8],
    numbers: &[u32],
    index: u64,
    page: &mut [u8],
) -> u32
    ensures { WritesPage standard_page_size value numbers index page result }
{
    calls::values::write_value_page(
        PageSize::standard(),
        TotalRule::New,
        value,
        numbers,
        index,
        page,
    )
}

// Writes a cell to the start of the cell buffer: its size, hash and numbers.
#[unsafe(no_mangle)]
pub extern "C" fn mopsienna_encode_cell(
    size: u64,
    hash: &[u8; 32],
    numbers: &[u32],
    buffer: &mut [u8],
) -> u32
    ensures { EncodesCell standard_page_size size hash numbers buffer result }
{
    calls::values::encode_cell(PageSize::standard(), size, hash, numbers, buffer)
}

// out: size, count of numbers.
#[unsafe(no_mangle)]
pub extern "C" fn mopsienna_decode_cell(cell: &[u8], hash: &mut [u8; 32], out: &mut [u64; 8]) -> u32
    ensures { DecodesCell standard_page_size cell hash out result }
{
    calls::values::decode_cell(PageSize::standard(), cell, hash, out)
}

// out: size, numbers found. Refusals 14, 15, 16 and 25: the index in the walk.
#[unsafe(no_mangle)]
pub extern "C" fn mopsienna_read_value(
    cell: &[u8],
    store: &[u8],
    numbers: &mut [u32],
    value: &mut [u8],
    out: &mut [u64; 8],
) -> u32
    ensures { ReadsValue standard_page_size cell store numbers value out result }
{
    calls::values::read_value(PageSize::standard(), cell, store, numbers, value, out)
}

// out: numbers found. Refusals 15, 16 and 25: the index in the walk.
#[unsafe(no_mangle)]
pub extern "C" fn mopsienna_delete_value(
    cell: &[u8],
    store: &[u8],
    numbers: &mut [u32],
    out: &mut [u64; 8],
) -> u32
    ensures { DeletesValue standard_page_size cell store numbers out result }
{
    calls::values::delete_value(PageSize::standard(), cell, store, numbers, out)
}
