// Deleting a value: the numbers of its pages are collected, so that they can be freed. No page is written.
ghost use Rattle.std.specs.Prelude.{◌≡◌};
ghost use Rattle.refusal.specs.Effect.{effect};
ghost use Rattle.overflow.specs.Reading.{delete_into, deleted_outcome};

use crate::admit::admit;
use crate::total::max_overflow_value_size;
use crate::walk::first_walk;
use page::store::Store;
use refusal::Refusal;

// Collects the numbers of the pages of a cell's value, and answers how many there are. The walk ends with the first page that has value
// bytes: in a chain as the writer makes it no page behind that one has numbers. No room is asked for the bytes, so there is enough for the
// largest value. Inlined for the page size, as in `calls`.
#[tactic(auto, using(crate::proofs::AdmitLaws::admission, crate::proofs::ReadLaws::delete_refused, crate::proofs::ReadLaws::part_long))]
#[inline(always)]
pub fn delete(store: &Store, cell: &[u8], numbers: &mut [u32]) -> Result<usize, Refusal>
    ensures { effect (deleted_outcome result) numbers.new ≡ delete_into store.now.page_size cell.now store.now.bytes numbers.old }
{
    let largest = max_overflow_value_size(store.page_size());
    let needs = admit(store, cell, numbers.len(), largest)?;
    let found = first_walk(store, cell, &mut numbers[..needs.totals.old])?;
    let total = needs.counted_total(found);
    if found.numbers != total {
        return Err(Refusal::Numbers);
    }
    Ok(total)
}
