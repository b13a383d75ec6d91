// The walk over the pages of a value: the numbers of its pages are queued from the cell and then from each page. It is made in two parts, as its first
// page with value bytes decides how many pages the value has.
ghost use Rattle.std.specs.Prelude.{◌≡◌, ◌+◌, ◌*◌, ◌-◌, ◌<◌, ◌≤◌, ◌&&◌, leb, length, take};
ghost use Rattle.std.proofs.lemmas.List.Edits.{sets};
ghost use Rattle.refusal.specs.Effect.{effect};
ghost use Rattle.page.specs.Bytes.{numbers_at};
ghost use Rattle.overflow.specs.Totals.{max_size};
ghost use Rattle.overflow.specs.Cells.{cell_header};
ghost use Rattle.overflow.specs.Reading.{in_store};
ghost use Rattle.overflow.specs.Steps.{page_outcome, visit_into, to_bytes, SmallCounts, first_walk_into, walk_into, walk_outcome};

use crate::page_ref::ValuePageRef;
use crate::parse::parse_page;
use page::little_endian::read_numbers;
use page::store::Store;
use refusal::Refusal;

// How far a walk has come: the pages that it has taken, the value bytes on them, and the numbers found on them and in the cell.
#[derive(Clone, Copy)]
pub(crate) struct WalkCounts {
    pub pages: usize,
    pub size: usize,
    pub numbers: usize,
}

// Where a walk ends: with the first page that has value bytes, or with the last place of its table. Contracts name the two, so this is an enum
// and no closure.
#[derive(Clone, Copy)]
pub(crate) enum Until {
    FirstBytes,
    End,
}

impl Until {
    // Whether a walk ends with a page of so many value bytes.
    fn ends_with(self, bytes: u16) -> bool
        ensures { result ≡ to_bytes self && leb 1 bytes }
    {
        match self {
            Until::FirstBytes => 1 <= bytes,
            Until::End => false,
        }
    }
}

// Walks from a cell to the first page that has value bytes, over one page for each place of the table at most, and fills the table with the
// first numbers found. Inlined, as a call is a fifth of the time of a value of one page.
#[inline(always)]
pub(crate) fn first_walk(
    store: &Store,
    cell: &[u8],
    table: &mut [u32],
) -> Result<WalkCounts, Refusal>
    requires cell { cell_header ≤ length cell.now }
    requires few { length table.old ≤ max_size store.now.page_size + 4 }
    ensures { effect (walk_outcome result) table.new ≡ first_walk_into store.now.page_size store.now.bytes cell.now table.old }
{
    let numbers = (cell.len() - 40) / 4;
    queue(cell, 40, numbers, table, 0);
    let start = WalkCounts {
        pages: 0,
        size: 0,
        numbers,
    };
    walk(store, start, Until::FirstBytes, table)
}

// Walks on from where a walk has come to, whose numbers stand in the table as far as it has room, and answers what was found in all.
pub(crate) fn walk(
    store: &Store,
    from: WalkCounts,
    until: Until,
    table: &mut [u32],
) -> Result<WalkCounts, Refusal>
    requires small { SmallCounts from }
    requires few { length table.old ≤ max_size store.now.page_size + 4 }
    ensures { effect (walk_outcome result) table.new ≡ walk_into store.now.page_size (in_store store.now.page_size store.now.bytes) (to_bytes until) from table.old }
{
    let mut found = from;
    for i in from.pages..table.len() {
        let page = visit_page(store, i, found.numbers, table)?;
        let bytes = page.byte_count();
        found.pages = i + 1;
        found.size += usize::from(bytes);
        found.numbers += usize::from(page.number_count());
        if until.ends_with(bytes) {
            return Ok(found);
        }
    }
    Ok(found)
}

// Visits page i of a walk, whose number stands in the table if it is known: puts the page's numbers behind the `known` ones, and answers
// the page. Refusal 14, and those of the page. Both places are in the table, which is lent whole as it is filled while it is read.
#[tactic(auto, using(crate::proofs::TableLaws::visit_unknown, crate::proofs::TableLaws::visit_refused))]
fn visit_page<'a>(
    store: &Store<'a>,
    i: usize,
    known: usize,
    table: &mut [u32],
) -> Result<ValuePageRef<'a>, Refusal>
    requires { i < length table.old }
    ensures { effect (page_outcome result) table.new ≡ visit_into store.now.page_size (in_store store.now.page_size store.now.bytes) (length table.old) i known table.old }
{
    if known <= i {
        return Err(Refusal::Unknown(i));
    }
    let page = parse_page(store, i, table[i])?;
    queue(page.0, 4, usize::from(page.number_count()), table, known);
    Ok(page)
}

// Puts n numbers from the bytes at `at` behind the `known` ones of the table, as far as it has room. Place and count are what `read_numbers`
// goes by; bytes cut to the numbers would have to tell their count by a quotient.
fn queue(b: &[u8], at: usize, n: usize, table: &mut [u32], known: usize)
    requires { at + 4 * n ≤ length b.now }
    ensures { table.new ≡ sets table.old known (take (length table.old - known) (numbers_at 4 b.now at n)) }
{
    if table.len() <= known {
        return;
    }
    let room = n.min(table.len() - known);
    read_numbers(b, at, &mut table[known..known + room]);
}
