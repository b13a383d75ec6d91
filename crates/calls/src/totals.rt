// How a store grows, and how many pages a value takes.
ghost use Rattle.std.specs.Prelude.{[], ◌∷◌};
ghost use Rattle.calls.specs.Totals.{Grows, TellsTotal};

use crate::told::{Told, report};
use overflow::total::{PageTotal, page_total};
use page::number::PageNumber;
use page::size::PageSize;

impl Told for PageNumber {
    ghost values = { λ page. page.0 ∷ [] };

    fn tell(self, out: &mut [u64; 8]) {
        out[0] = u64::from(self.0);
    }
}

impl Told for PageTotal {
    ghost values = { λ t. t.total ∷ t.cell ∷ t.spare ∷ t.room ∷ [] };

    fn tell(self, out: &mut [u64; 8]) {
        out[0] = self.total as u64;
        out[1] = self.cell as u64;
        out[2] = self.spare as u64;
        out[3] = self.room as u64;
    }
}

// out: the new length.
pub fn grow(page: u32, out: &mut [u64; 8]) -> u32
    ensures { Grows page out result }
{
    report(page::growth::grow(PageNumber(page)), out)
}

// out: total, numbers in the cell, spare room, places that a reader's number table needs.
pub fn total(page_size: PageSize, size: u64, out: &mut [u64; 8]) -> u32
    ensures { TellsTotal page_size size out result }
{
    report(page_total(page_size, size), out)
}
