// A list page: bytes 0-3 the previous list page, 4-5 the count of entries, then the entries, four bytes each.
ghost use Rattle.std.specs.Prelude.{◌≡◌};
ghost use Rattle.free_list.specs.ListPages.{prev_within, count_within, entry_within};

use page::little_endian::{LittleEndian, nth_number};
use page::number::PageNumber;

// A list page that is held: a struct with the lent bytes, whose methods read what stands on them.
//
// Nothing is asked of the bytes. A page shorter than its header has no previous page and no entries, and an entry that the page ends
// before is nil.
#[derive(Clone, Copy)]
pub struct FreeListPageRef<'a>(pub &'a [u8]);

impl<'a> FreeListPageRef<'a> {
    pub fn new(page: &'a [u8]) -> FreeListPageRef<'a>
        ensures { result.0 ≡ page.entry }
    {
        FreeListPageRef(page)
    }

    // The number of the previous list page.
    #[tactic(auto, unfolding(crate::specs::ListPages::prev_within, crate::specs::ListPages::prev_of))]
    pub fn prev_pn(self) -> PageNumber
        ensures { result.0 ≡ prev_within self.entry.0.now }
    {
        if self.0.len() < 6 {
            return PageNumber(0);
        }
        PageNumber(u32::read_at(self.0, 0))
    }

    // The count of entries.
    #[tactic(auto, unfolding(crate::specs::ListPages::count_within, crate::specs::ListPages::count_of))]
    pub fn item_count(self) -> u16
        ensures { result ≡ count_within self.entry.0.now }
    {
        if self.0.len() < 6 {
            return 0;
        }
        u16::read_at(self.0, 4)
    }

    // Entry i.
    #[tactic(auto, unfolding(crate::specs::ListPages::entry_within, page::specs::Bytes::nth_within))]
    pub fn item(self, i: usize) -> PageNumber
        ensures { result.0 ≡ entry_within self.entry.0.now i }
    {
        PageNumber(nth_number(self.0, 6, i))
    }
}
