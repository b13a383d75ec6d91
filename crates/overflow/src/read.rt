// Reading a value by its cell: first the walk, which decides on its way how many pages the value has and fills the number table, then the
// copying, which cannot fail.
ghost use Rattle.std.specs.Prelude.{◌≡◌};
ghost use Rattle.std.proofs.lemmas.List.Edits.{sets};
ghost use Rattle.refusal.specs.Effect.{before, after, effect};
ghost use Rattle.overflow.specs.Reading.{read_lent, read_value_into, read_outcome};
ghost use Rattle.overflow.specs.Steps.{value_bytes_of, Copyable};

use crate::admit::admit;
use crate::cell::ValueCounts;
use crate::page_ref::ValuePageRef;
use crate::walk::{Until, first_walk, walk};
use page::copy::copy;
use page::store::Store;
use refusal::Refusal;

// Reads the value of a cell. The number table then holds the numbers of its pages, after a refusal in the walk those found before;
// the value buffer is written only if all is well. Inlined for the page size, as in `calls`.
#[tactic(auto, using(crate::proofs::AdmitLaws::admission, crate::proofs::ReadLaws::read_refused, crate::proofs::ReadLaws::part_long))]
#[inline(always)]
pub fn read(
    store: &Store,
    cell: &[u8],
    numbers: &mut [u32],
    value: &mut [u8],
) -> Result<ValueCounts, Refusal>
    ensures { effect (read_outcome result) (read_lent after numbers value) ≡ read_value_into store.now.page_size cell.now store.now.bytes (read_lent before numbers value) }
{
    let needs = admit(store, cell, numbers.len(), value.len())?;
    let found = first_walk(store, cell, &mut numbers[..needs.totals.old])?;
    let total = needs.counted_total(found);
    let table = &mut numbers[..total];
    let found = walk(store, found, Until::End, table)?;
    if found.numbers != total {
        return Err(Refusal::Numbers);
    }
    if found.size != needs.size {
        return Err(Refusal::Bytes);
    }
    copy_value(store, table, value);
    Ok(ValueCounts {
        size: needs.size,
        numbers: total,
    })
}

// Copies the value bytes of the pages of these numbers, one page after another. Inlined as the first walk is.
#[inline(always)]
fn copy_value(store: &Store, numbers: &[u32], value: &mut [u8])
    requires { Copyable store.now.page_size store.now.bytes numbers.now value.old }
    ensures { value.new ≡ sets value.old 0 (value_bytes_of store.now.page_size store.now.bytes numbers.now) }
{
    let mut at = 0;
    for &number in numbers {
        let bytes = ValuePageRef::new(store.page(number)).bytes();
        copy(bytes, value, at);
        at += bytes.len();
    }
}
