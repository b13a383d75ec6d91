// Page lookup: where a page lies, in the pending pages of a save or in the store.
ghost use Rattle.lookup.specs.Lookup.{place_told};
ghost use Rattle.calls.specs.Lookups.{place_values, LooksUp};

use crate::told::{Told, report};
use lookup::find::{Pending, Place, find};
use page::number::PageNumber;
use page::size::PageSize;
use page::store::Store;

// 0 for the pending pages or 1 for the store, and the byte there.
impl Told for Place {
    ghost values = { λ p. place_values (place_told p) };

    fn tell(self, out: &mut [u64; 8]) {
        match self {
            Place::Pending(at) => {
                out[0] = 0;
                out[1] = at as u64;
            }
            Place::Store(at) => {
                out[0] = 1;
                out[1] = at as u64;
            }
        }
    }
}

// out: 0 for the pending pages or 1 for the store, the byte there at which the page starts. Refusal 15: the page.
pub fn lookup(
    page_size: PageSize,
    numbers: &[u32],
    pending: &[u8],
    store: &[u8],
    page: u32,
    out: &mut [u64; 8],
) -> u32
    ensures { LooksUp page_size numbers pending store page out result }
{
    let store = Store::new(page_size, store);
    let pending = Pending {
        numbers,
        pages: pending,
    };
    report(find(&store, &pending, PageNumber(page)), out)
}
