// Reading a list into two lent tables: first a walk that only reads, then one that marks the numbers in a bit map, and then the filling, which
// cannot fail.
ghost use Rattle.std.specs.Prelude.{◌≡◌, length};
ghost use Rattle.refusal.specs.Effect.{effect};
ghost use Rattle.free_list.specs.Reading.{is_loose, tables_before, tables_after, list_in, list_lent_before, list_lent_after, read_list_into, read_outcome};
ghost use Rattle.free_list.specs.Steps.{chain_from, Fillable};

use crate::page_ref::FreeListPageRef;
use crate::repeats::numbers_differ;
use crate::tables::Tables;
use crate::walk::measure;
pub use crate::walk::{ListCounts, Reading};
use bit_map::map::has_bits;
use page::little_endian::read_numbers;
use page::number::PageNumber;
use page::store::Store;
use refusal::Refusal;

// Reads the list with this head page. Returns how many pages and entries now stand in the tables; after a refusal both tables are as
// they were. Once the map is known to have a bit for each page of the store, its bytes in use are zero whatever comes.
pub fn read(
    store: &Store,
    reading: Reading,
    head: PageNumber,
    tables: Tables,
    map: &mut [u8],
) -> Result<ListCounts, Refusal>
    ensures { effect (read_outcome result) (list_lent_after tables map) ≡ read_list_into store.now.page_size store.now.bytes (is_loose reading) head.0 (list_lent_before tables map) }
{
    let Tables { pages, entries } = tables;
    let list = measure(store, reading, head.0)?;
    if !has_bits(store.page_count() as usize, map) {
        return Err(Refusal::Map);
    }
    if !numbers_differ(store, head.0, list, map) {
        return Err(Refusal::Repeat);
    }
    if pages.len() < list.pages || entries.len() < list.entries {
        return Err(Refusal::Tables);
    }
    fill(store, head.0, list, Tables { pages, entries });
    Ok(list)
}

// Fills the tables from their ends down, with the list of `list.pages` pages from page `head` down.
fn fill(store: &Store, head: u32, list: ListCounts, tables: Tables)
    requires { Fillable store.now.page_size store.now.bytes head list (length tables.pages.now) (length tables.entries.now) }
    ensures { tables_after tables ≡ list_in (tables_before tables) (chain_from store.now.page_size store.now.bytes list.pages head) }
{
    let Tables { pages, entries } = tables;
    let mut page = head;
    let mut at = list.entries;
    for left in (0..list.pages).rev() {
        let bytes = store.page(page);
        let list_page = FreeListPageRef::new(bytes);
        let n = usize::from(list_page.item_count());
        at -= n;
        read_numbers(bytes, 6, &mut entries[at..at + n]);
        pages[left] = page;
        page = list_page.prev_pn().0;
    }
}
