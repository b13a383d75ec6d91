// Reading a page of a walk over a value's pages: the one place where it is taken or refused.
ghost use Rattle.std.specs.Prelude.{◌≡◌};
ghost use Rattle.overflow.specs.Reading.{in_store, parse_page as parsed};
ghost use Rattle.overflow.specs.Steps.{page_outcome};

use crate::page_ref::ValuePageRef;
use page::store::Store;
use refusal::Refusal;

// The page of this number, which comes at index i of a walk. Refusals 15, 16 and 25.
#[tactic(auto, using(page::proofs::PageSizeLaws::page_least, crate::proofs::ParseLaws::page_missing, crate::proofs::ParseLaws::page_unfit, crate::proofs::ParseLaws::page_empty, crate::proofs::ParseLaws::page_taken))]
pub(crate) fn parse_page<'a>(
    store: &Store<'a>,
    i: usize,
    number: u32,
) -> Result<ValuePageRef<'a>, Refusal>
    ensures { page_outcome result ≡ parsed store.now.page_size (in_store store.now.page_size store.now.bytes) i number }
{
    if store.page_count() <= number {
        return Err(Refusal::Missing(i));
    }
    let page = ValuePageRef::new(store.page(number));
    let numbers = usize::from(page.number_count());
    let bytes = usize::from(page.byte_count());
    if store.page_size().bytes() - 4 < 4 * numbers + bytes {
        return Err(Refusal::ValuePage(i));
    }
    if numbers + bytes == 0 {
        return Err(Refusal::EmptyPage(i));
    }
    Ok(page)
}
