// The free list: reading it from a store.
ghost use Rattle.page.specs.PageSize.{standard_page_size};
ghost use Rattle.calls.specs.Lists.{ReadsList};

use page::size::PageSize;

// out: P, L. Refusals 2, 3 and 4: the page.
#[unsafe(no_mangle)]
pub extern "C" fn mopsienna_read_list(
    store: &[u8],
    head: u32,
    pages: &mut [u32],
    entries: &mut [u32],
    map: &mut [u8],
    out: &mut [u64; 8],
) -> u32
    ensures { ReadsList standard_page_size store head pages entries map out result }
{
    calls::lists::read_list(PageSize::standard(), store, head, pages, entries, map, out)
}
