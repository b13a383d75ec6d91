// Whether a cell's value can be walked over: refusals 12, 10 and 13, which reading and deleting share.
ghost use Rattle.std.specs.Prelude.{◌≡◌};
ghost use Rattle.page.specs.PageSize.{IsPageSize};
ghost use Rattle.overflow.specs.Steps.{admitted_needs, admitted_outcome, counted_total};

use crate::cell::cell_counts;
use crate::total::{Totals, total_needed_pages};
use crate::walk::WalkCounts;
use page::store::Store;
use refusal::Refusal;

// What a cell's value needs, by its size: that many bytes, and as many numbers as one of the two totals.
#[derive(Clone, Copy)]
pub(crate) struct Needs {
    pub size: usize,
    pub totals: Totals,
}

impl Needs {
    // The total of the value, after the walk to its first page with value bytes: the new one, where there is such a page and as many numbers were
    // found by then; else the old one.
    #[tactic(auto, unfolding(crate::specs::Steps::counted_total))]
    pub(crate) fn counted_total(self, found: WalkCounts) -> usize
        ensures { result ≡ counted_total self found }
    {
        if 1 <= found.size && found.numbers == self.totals.new {
            self.totals.new
        } else {
            self.totals.old
        }
    }
}

// What a cell's value needs, where a value can have its size and there is room for so many numbers and bytes. That the page size is one is told
// too, as callers see the store's value alone. Store and cell go side by side here and in what calls this, as a host has them: one is of the
// value, the other of all values.
#[tactic(auto, using(crate::proofs::CellsLaws::decoding, crate::proofs::AdmitLaws::admit_undecoded, crate::proofs::AdmitLaws::decoded_few, crate::proofs::AdmitLaws::admit_empty))]
pub(crate) fn admit(
    store: &Store,
    cell: &[u8],
    numbers: usize,
    bytes: usize,
) -> Result<Needs, Refusal>
    ensures needs { admitted_outcome result ≡ admitted_needs store.now.page_size numbers bytes cell.now }
    ensures page_size { IsPageSize store.now.page_size }
{
    let page_size = store.page_size();
    let size = cell_counts(page_size, cell)?.size;
    if size == 0 {
        return Err(Refusal::Size);
    }
    let totals = total_needed_pages(page_size, size);
    if numbers < totals.old || bytes < size {
        return Err(Refusal::Room);
    }
    Ok(Needs { size, totals })
}
