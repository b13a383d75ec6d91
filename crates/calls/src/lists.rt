// The free list: reading it from a store.
ghost use Rattle.std.specs.Prelude.{[], ◌∷◌};
ghost use Rattle.calls.specs.Lists.{ReadsList};

use crate::told::{Told, report};
use free_list::read::{ListCounts, Reading, read};
use free_list::tables::Tables;
use page::number::PageNumber;
use page::size::PageSize;
use page::store::Store;

impl Told for ListCounts {
    ghost values = { λ list. list.pages ∷ list.entries ∷ [] };

    fn tell(self, out: &mut [u64; 8]) {
        out[0] = self.pages as u64;
        out[1] = self.entries as u64;
    }
}

// out: P, L. Refusals 2, 3 and 4: the page.
pub fn read_list(
    page_size: PageSize,
    store: &[u8],
    head: u32,
    pages: &mut [u32],
    entries: &mut [u32],
    map: &mut [u8],
    out: &mut [u64; 8],
) -> u32
    ensures { ReadsList page_size store head pages entries map out result }
{
    let store = Store::new(page_size, store);
    report(
        read(
            &store,
            Reading::Strict,
            PageNumber(head),
            Tables { pages, entries },
            map,
        ),
        out,
    )
}
