// How a store grows, and how many pages a value takes.
ghost use Rattle.page.specs.PageSize.{standard_page_size};
ghost use Rattle.calls.specs.Totals.{Grows, TellsTotal};

use page::size::PageSize;

// out: the new length.
#[unsafe(no_mangle)]
pub extern "C" fn mopsienna_grow(page: u32, out: &mut [u64; 8]) -> u32
    ensures { Grows page out result }
{
    calls::totals::grow(page, out)
}

// out: total, numbers in the cell, spare room.
#[unsafe(no_mangle)]
pub extern "C" fn mopsienna_total(size: u64, out: &mut [u64; 8]) -> u32
    ensures { TellsTotal standard_page_size size out result }
{
    calls::totals::total(PageSize::standard(), size, out)
}
