// Page lookup: where a page lies, in the pending pages of a save or in the store.
ghost use Rattle.page.specs.PageSize.{standard_page_size};
ghost use Rattle.calls.specs.Lookups.{LooksUp};

use page::size::PageSize;

// out: 0 for the pending pages or 1 for the store, the byte there at which the page starts. Refusal 15: the page.
#[unsafe(no_mangle)]
pub extern "C" fn mopsienna_lookup(
    numbers: &[u32],
    pending: &[u8],
    store: &[u8],
    page: u32,
    out: &mut [u64; 8],
) -> u32
    ensures { LooksUp standard_page_size numbers pending store page out result }
{
    calls::lookups::lookup(PageSize::standard(), numbers, pending, store, page, out)
}
