// An open save, beside the two lent tables of its list: what it started from, and what is counted up.
ghost use Rattle.std.specs.Prelude.{◌≡◌, ◌≤◌};
ghost use Rattle.page.specs.Growth.{max_bump, grown};
ghost use Rattle.free_list.specs.Shape.{is_shape};
ghost use Rattle.allocator.specs.OpenSave.{state_fits};

use free_list::list_page::max_pns_per_page;
use page::growth::{MAX_BUMP, grow};
use page::number::{Allocations, PageNumber};
use page::size::PageSize;
use std::marker::Model;

// What a save starts from, which stays as it is.
#[derive(Clone, Copy)]
pub struct Start {
    // The next page number past the store.
    pub bump: u32,
    // The pages and the entries of the list, which the tables hold from the bottom page up.
    pub pages: usize,
    pub entries: usize,
}

// What is counted up as numbers are handed out.
#[derive(Clone, Copy)]
pub struct OpenSave {
    // How many numbers were handed out.
    pub allocations: Allocations,
    // The store's recorded length, in pages.
    pub length: u32,
}

// Both together.
#[derive(Clone, Copy)]
pub struct Save {
    pub start: Start,
    pub open: OpenSave,
}

// A save of a store whose pages have one size, beside the tables of its list, which are lent.
#[derive(Drop)]
pub struct LentSave<'a> {
    pub page_size: PageSize,
    pub save: Save,
    pub pages: &'a [u32],
    pub entries: &'a [u32],
}

impl<'a> Model for LentSave<'a> {
    ghost use Rattle.allocator.specs.Answers.{SizedSave, save_of};

    ghost Value = { SizedSave };

    ghost view = { λ s. record { page_size = s.page_size; save = save_of s.save.start s.save.«open» s.pages.now s.entries.now } };
}

// Whether a list can have so many pages and entries, with c entries to a page.
#[tactic(auto, using(crate::proofs::SaveLaws::shape_none, crate::proofs::SaveLaws::shape_few, crate::proofs::SaveLaws::shape_enough))]
pub(crate) fn shape_fits(c: usize, pages: usize, entries: usize) -> bool
    requires { 2 ≤ c }
    ensures { result ≡ is_shape c pages entries }
{
    if entries == 0 {
        return pages == 0;
    }
    if pages <= (entries - 1) / c {
        return false;
    }
    pages - 1 <= entries / c
}

impl<'a> LentSave<'a> {
    // Whether it can go on, whatever was counted.
    #[tactic(auto, using(crate::proofs::SaveLaws::tested), unfolding(crate::specs::OpenSave::state_fits))]
    pub fn state_fits(&self) -> bool
        ensures { result ≡ state_fits self.now.page_size self.now.save }
    {
        let start = self.save.start;
        (1 <= start.bump && start.bump <= MAX_BUMP)
            && (shape_fits(max_pns_per_page(self.page_size), start.pages, start.entries)
                && (start.pages <= self.pages.len() && start.entries <= self.entries.len()))
    }
}

// The length that a store is grown to for this page or bump.
#[tactic(auto, using(crate::proofs::SaveLaws::grown_is, crate::proofs::SaveLaws::grown_always))]
pub fn grown_for(page: u32) -> u32
    requires { page ≤ max_bump }
    ensures { result ≡ grown page }
{
    grow(PageNumber(page)).map_or(page, |grown| grown.0)
}
