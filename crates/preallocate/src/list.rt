// A free list whose two tables are lent, and what is known of it by its shape.
ghost use Rattle.std.specs.Prelude.{◌≡◌, true, ◌&&◌, ◌*◌, ◌-◌, ◌^◌, ◌≤◌, ◌<◌, ℕ, eqb, length, get_or};
ghost use Rattle.page.specs.PageSize.{capacity};
ghost use Rattle.free_list.specs.Shape.{is_shape, is_fragmented, entries_below, entries_on, previous};
ghost use Rattle.preallocate.specs.Lists.{whole_list};

use free_list::list_page::max_pns_per_page;
use page::number::PageNumber;
use page::size::PageSize;
use std::marker::Model;

// A list of a store whose pages have one size: its page numbers and its entries are lent, both from the bottom page up.
#[derive(Drop)]
pub struct LentList<'a> {
    page_size: PageSize,
    // How many entries a page holds.
    pub(crate) capacity: usize,
    pub(crate) pages: &'a [u32],
    pub(crate) entries: &'a [u32],
}

impl<'a> Model for LentList<'a> {
    ghost use Rattle.preallocate.specs.Lists.{whole_list, SizedList, Shapely};

    ghost Value = { SizedList };

    ghost view = { λ l. record { page_size = l.page_size; list = whole_list l.pages.now l.entries.now } };

    ghost invariant = { λ l. Shapely l.page_size l.capacity (whole_list l.pages.now l.entries.now) };
}

impl<'a> LentList<'a> {
    // The list that these tables hold, which has the shape of an accepted one. That its entries have 32 bits is told too: callers see the
    // list, and not the slices.
    pub fn new(page_size: PageSize, pages: &'a [u32], entries: &'a [u32]) -> LentList<'a>
        requires { is_shape (capacity page_size) (length pages.now) (length entries.now) ≡ true }
        ensures list { result ≡ record { page_size = page_size; list = whole_list pages.entry.now entries.entry.now } }
        ensures fits { (i : ℕ) → get_or entries.entry.now i 0 < 2 ^ 32 }
    {
        LentList {
            page_size,
            capacity: max_pns_per_page(page_size),
            pages,
            entries,
        }
    }

    pub fn page_size(&self) -> PageSize
        ensures { result ≡ self.now.page_size }
    {
        self.page_size
    }

    // How many pages it has.
    pub fn page_count(&self) -> usize
        ensures { result ≡ length self.now.list.pages }
    {
        self.pages.len()
    }

    // The number of the page under page j, 0 if there is none.
    pub fn previous(&self, j: usize) -> PageNumber
        requires { j ≤ length self.now.list.pages }
        ensures { result.0 ≡ previous self.now.list.pages j }
    {
        let pages = self.pages;
        if j == 0 {
            return PageNumber(0);
        }
        PageNumber(pages[j - 1])
    }

    // How many entries stand on the pages below page j.
    fn entries_below(&self, j: usize) -> usize
        requires { (1 ≤ length self.now.list.pages) × (j ≤ length self.now.list.pages) }
        ensures { result ≡ entries_below (capacity self.now.page_size) (length self.now.list.pages) (length self.now.list.entries) j }
    {
        let pages = self.pages.len();
        let entries = self.entries.len();
        if pages <= j {
            return entries;
        }
        if j + 1 < pages {
            return self.capacity * j;
        }
        if is_fragmented(self.capacity, pages, entries) {
            return entries - 1;
        }
        self.capacity * j
    }

    // The entries on page j.
    pub fn entries_on(&self, j: usize) -> &'a [u32]
        requires { j < length self.now.list.pages }
        ensures they { result.now ≡ entries_on (capacity self.now.page_size) self.now.list j }
        ensures few { length result.now ≤ capacity self.now.page_size }
    {
        let entries = self.entries;
        let from = self.entries_below(j);
        let to = self.entries_below(j + 1);
        &entries[from..to]
    }
}

// Whether the list of so many pages and entries is fragmented. This and `mends` take counts and not a `LentList`, since they hold of any
// counts, and a `LentList` has the shape.
#[tactic(auto, unfolding(free_list::specs::Shape::is_fragmented))]
pub fn is_fragmented(c: usize, pages: usize, entries: usize) -> bool
    requires { c * (pages - 1) < 2 ^ 64 }
    ensures { result ≡ is_fragmented c pages entries }
{
    2 <= pages && entries == c * (pages - 1)
}

// Whether the list is fragmented and none of it was popped: then the head's one entry becomes the number of the page under it.
pub fn mends(c: usize, pages: usize, entries: usize, popped: usize) -> bool
    requires { c * (pages - 1) < 2 ^ 64 }
    ensures { result ≡ eqb popped 0 && is_fragmented c pages entries }
{
    popped == 0 && is_fragmented(c, pages, entries)
}
