// The walk down a list, which only reads: it finds out how many pages and entries the list has, or why it is refused.
ghost use Rattle.std.specs.Prelude.{◌≡◌, cond, ◌&&◌, leb, ltb, ◌+◌, ◌*◌, ◌<◌, ◌≤◌, length};
ghost use Rattle.page.specs.Bytes.{numbers_at};
ghost use Rattle.page.specs.PageSize.{IsPageSize};
ghost use Rattle.page.specs.Pages.{page_count};
ghost use Rattle.free_list.specs.Reading.{is_loose, count_fits, all_entries_fit, read_outcome};
ghost use Rattle.free_list.specs.Steps.{read_size, walk_from, MayVisit, Visits, MayWalk, Walks};

use crate::list_page::max_pns_per_page;
use crate::page_ref::FreeListPageRef;
use page::little_endian::LittleEndian;
use page::store::Store;
use refusal::Refusal;

// How many pages and entries a list has.
#[derive(Clone, Copy)]
pub struct ListCounts {
    pub pages: usize,
    pub entries: usize,
}

// Which counts the pages of a list may have. Contracts name the two, so this is an enum and no closure.
#[derive(Clone, Copy, PartialEq, Eq, Debug)]
pub enum Reading {
    // On the head 1 to the most, on each page below it the most; but under a head of one entry there may be one less.
    Strict,
    // Any count from 0 to the most.
    Loose,
}

// Where a walk stands: the page to visit next, how many more it may visit, and the pages and entries that it has passed.
#[derive(Clone, Copy)]
pub(crate) struct Walk {
    pub page: u32,
    pub allowed: usize,
    pub pages: usize,
    pub entries: usize,
}

// How far a walk has come: the list has ended, or the walk has nested as many calls as it may, and goes on from here. Neither is a failure, so
// this is no `Result`; the refusals are. A `ControlFlow` would hide which is which.
#[derive(Clone, Copy)]
pub(crate) enum Descent {
    Ended(ListCounts),
    More(Walk),
}

// How many calls the walk nests before it hands back where it stands: the stack that it takes does not grow with the store.
const NESTED: usize = 256;

impl Walk {
    // A walk from this head page, which may visit as many pages as the store has.
    fn new(store: &Store, head: u32) -> Walk
        ensures { result ≡ walk_from (page_count store.now.page_size store.now.bytes) head }
    {
        Walk {
            page: head,
            allowed: store.page_count() as usize,
            pages: 0,
            entries: 0,
        }
    }

    // Visits the page at which the walk stands, and goes on to the page under it. A page holds `most` entries, which goes beside the store: the
    // pages of a value have no such number.
    fn visit(self, store: &Store, reading: Reading, most: usize) -> Result<Walk, Refusal>
        requires { MayVisit store.now.page_size most self }
        ensures { Visits store.now.page_size store.now.bytes (is_loose reading) self result }
    {
        let page = self.page;
        let count = store.page_count();
        if self.allowed == 0 {
            return Err(Refusal::Chain);
        }
        if count <= page {
            return Err(Refusal::ListPage(page));
        }
        let bytes = store.page(page);
        let list_page = FreeListPageRef::new(bytes);
        let n = usize::from(list_page.item_count());
        if !count_fits(reading, most, self.pages, self.entries, n) {
            return Err(Refusal::Count(page));
        }
        if !entries_fit(bytes, n, count) {
            return Err(Refusal::Entry(page));
        }
        Ok(Walk {
            page: list_page.prev_pn().0,
            allowed: self.allowed - 1,
            pages: self.pages + 1,
            entries: self.entries + n,
        })
    }

    // Walks down the list: each call visits a page and calls itself with one page fewer allowed. As a call keeps its frame, it nests only so
    // many of them. A walk that comes back to the marked page, and passed on its way only pages that fit wherever they stand, would go round
    // until no page is allowed.
    #[tactic(auto, using(crate::proofs::ReadingLaws::size_end, crate::proofs::RoundLaws::size_round, crate::proofs::RoundLaws::marked_next))]
    fn walk_down(
        self,
        store: &Store,
        reading: Reading,
        most: usize,
        mark: Option<u32>,
        nested: usize,
    ) -> Result<Descent, Refusal>
        requires { MayWalk store.now.page_size store.now.bytes (is_loose reading) most mark self }
        ensures { Walks store.now.page_size store.now.bytes (is_loose reading) mark nested self result }
    {
        if self.page == 0 {
            return Ok(Descent::Ended(ListCounts {
                pages: self.pages,
                entries: self.entries,
            }));
        }
        if nested == 0 {
            return Ok(Descent::More(self));
        }
        let next = self.visit(store, reading, most)?;
        if mark == Some(next.page) {
            return Err(Refusal::Chain);
        }
        next.walk_down(store, reading, most, mark, nested - 1)
    }
}

// Whether a count of n fits a page under `above` pages with `entries` entries, where a page holds `most`.
#[tactic(auto, unfolding(crate::specs::Reading::count_fits))]
fn count_fits(reading: Reading, most: usize, above: usize, entries: usize, n: usize) -> bool
    requires { n < 65536 }
    ensures { result ≡ count_fits (is_loose reading) most above entries n }
{
    match reading {
        Reading::Loose => n <= most,
        Reading::Strict if above == 0 => 1 <= n && n <= most,
        Reading::Strict => n == most || (above == 1 && entries == 1 && n + 1 == most),
    }
}

// 0 where an entry is the number of a page of a store of `count` pages, and 1 where it is not or is 0.
fn unfit(entry: u32, count: u32) -> u32
    ensures { (result ≡ cond (leb 1 entry && ltb entry count) 0 1) × (result ≤ 1) }
{
    u32::from(entry == 0 || count <= entry)
}

// Whether the first n entries of a list page are numbers of pages of a store of `count` pages, and none is 0. The page comes whole, as its
// entries are read at their places. All are counted that are not: without a way out in its middle the loop becomes vector code. With `all` in
// its place it takes two and a half times as long, with `filter` and `count` almost four times; `map` and `sum` are as fast, but the check
// does not bound the sum.
#[tactic(auto, using(crate::proofs::ReadingLaws::entries_more), unfolding(crate::specs::Reading::all_entries_fit, page::specs::Bytes::numbers_at))]
fn entries_fit(page: &[u8], n: usize, count: u32) -> bool
    requires { (n < 65536) × (6 + 4 * n ≤ length page.now) }
    ensures { result ≡ all_entries_fit count (numbers_at 4 page.now 6 n) }
{
    let mut bad = 0;
    for i in 0..n {
        bad += unfit(u32::read_at(page, 6 + 4 * i), count);
    }
    bad == 0
}

// The size of the list with this head page, or why it is refused: the walk, as often as it takes. Where it stands is marked each time that
// it has come twice as far, so that a list whose pages point at each other is seen soon after the walk has gone round once. That the page size
// is one is told too, as callers see the store's value alone.
#[tactic(auto, using(page::proofs::PageSizeLaws::page_least, page::proofs::PagesLaws::page_count_fits, crate::proofs::ReadingLaws::size_start))]
pub(crate) fn measure(store: &Store, reading: Reading, head: u32) -> Result<ListCounts, Refusal>
    ensures sized { IsPageSize store.now.page_size }
    ensures outcome { read_outcome result ≡ read_size store.now.page_size store.now.bytes (is_loose reading) head }
{
    let most = max_pns_per_page(store.page_size());
    let mut walk = Walk::new(store, head);
    let mut mark = None;
    let mut due = 2;
    // How often the walk is taken is known only when it has ended, so there is no range to go over.
    loop {
        match walk.walk_down(store, reading, most, mark, NESTED)? {
            Descent::Ended(list) => {
                return Ok(list);
            }
            Descent::More(next) => {
                walk = next;
                if due <= next.pages {
                    mark = Some(next.page);
                    due = 2 * next.pages;
                }
            }
        }
    }
}
