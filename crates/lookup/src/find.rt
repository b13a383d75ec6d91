// Where a page lies.
ghost use Rattle.std.specs.Prelude.{◌≡◌, ◌==◌, position};
ghost use Rattle.lookup.specs.Lookup.{find, find_outcome};

use page::number::PageNumber;
use page::store::Store;
use refusal::Refusal;

// The pending pages of a save: their numbers, and their bytes one page after another in the same order. Where a number stands there
// twice, its first place counts.
#[derive(Clone, Copy)]
pub struct Pending<'n, 'a> {
    pub numbers: &'n [u32],
    pub pages: &'a [u8],
}

impl<'n, 'a> Pending<'n, 'a> {
    // The first place of a number, if it is there.
    fn position(&self, number: u32) -> Option<usize>
        ensures { result ≡ position (λ n. n == number) self.now.numbers.now }
    {
        self.numbers.iter().position(|n| *n == number)
    }
}

// The first byte of a page, in the pending pages or in the store.
#[derive(Clone, Copy)]
pub enum Place {
    Pending(usize),
    Store(usize),
}

// Where the page lies. Refusal 9: fewer pending bytes than a page for each number. Refusal 15: the page is neither pending nor below
// the store's page count. The room is tested by a quotient, since the product may not fit 64 bits.
#[tactic(auto, using(crate::proofs::LookupLaws::page_some, crate::proofs::LookupLaws::find_short, crate::proofs::LookupLaws::find_pending, crate::proofs::LookupLaws::find_missing, crate::proofs::LookupLaws::find_stored))]
pub fn find(store: &Store, pending: &Pending, page: PageNumber) -> Result<Place, Refusal>
    ensures { find_outcome result ≡ find store.now.page_size pending.now.numbers.now pending.now.pages.now store.now.bytes page.0 }
{
    let size = store.page_size().bytes();
    let number = page.0;
    if pending.pages.len() / size < pending.numbers.len() {
        return Err(Refusal::Buffer);
    }
    if let Some(i) = pending.position(number) {
        return Ok(Place::Pending(size * i));
    }
    if store.page_count() <= number {
        return Err(Refusal::Missing(number as usize));
    }
    Ok(Place::Store(size * number as usize))
}
