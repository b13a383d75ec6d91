// The bytes of a page.
ghost use Rattle.std.specs.Prelude.{◌≡◌};
ghost use Rattle.lookup.specs.Lookup.{lookup};

use crate::find::{Pending, Place, find};
use page::number::PageNumber;
use page::store::Store;

// The page, as a part of the pending pages or of the store; empty after a refusal, whose number `find` tells.
#[tactic(auto, using(crate::proofs::LookupLaws::pending_within, crate::proofs::LookupLaws::stored_within, crate::proofs::LookupLaws::lookup_pending, crate::proofs::LookupLaws::lookup_stored, crate::proofs::LookupLaws::lookup_refused))]
pub fn lookup<'n, 'a>(store: &Store<'a>, pending: &Pending<'n, 'a>, page: PageNumber) -> &'a [u8]
    ensures { result.now ≡ lookup store.now.page_size pending.now.numbers.now pending.now.pages.now store.now.bytes page.0 }
{
    let size = store.page_size().bytes();
    match find(store, pending, page) {
        Ok(Place::Pending(at)) => &pending.pages[at..at + size],
        Ok(Place::Store(_)) => store.page(page.0),
        Err(_) => &[],
    }
}
