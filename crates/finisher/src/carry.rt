// Writing what was judged: the number list, the tables, and the pages.
//
// The save and its tables come apart, since the tables are lent by `&mut` here, and by `&` for the judging. The freed numbers are lent beside
// the work, which is numbers alone and goes by value.
ghost use Rattle.std.specs.Prelude.{◌≡◌};
ghost use Rattle.std.proofs.lemmas.List.Edits.{sets};
ghost use Rattle.free_list.specs.Reading.{tables_now, tables_before, tables_after, list_in};
ghost use Rattle.finisher.specs.Answers.{save_with};
ghost use Rattle.finisher.specs.Finish.{finished, with_pages, with_numbers};
ghost use Rattle.finisher.specs.Steps.{Goes, Doable, Numberable, Filled, plan_for, numbers_for, new_tables};

use crate::encode::encode_pages;
use crate::judge::{Work, list_of};
use crate::tables::write_pushes;
use allocator::save::{LentSave, Save};
use free_list::list_page::max_pns_per_page;
use free_list::tables::Tables;
use page::copy::copy;
use page::size::PageSize;
use preallocate::list::{LentList, mends};

// Writes the work. Where no page is written nothing changes.
pub(crate) fn carry_out(
    page_size: PageSize,
    save: Save,
    work: Work,
    freed: &[u32],
    tables: Tables,
    buffer: &mut [u8],
    numbers: &mut [u32],
)
    requires { Goes page_size (save_with save (tables_now tables)) freed.now work buffer.old numbers.old }
    ensures tables { tables_after tables ≡ list_in (tables_before tables) (finished page_size (save_with save (tables_before tables)) freed.now).list }
    ensures buffer { buffer.new ≡ with_pages buffer.old (finished page_size (save_with save (tables_before tables)) freed.now) }
    ensures numbers { numbers.new ≡ with_numbers numbers.old (finished page_size (save_with save (tables_before tables)) freed.now) }
{
    if work.written == 0 {
        return;
    }
    let Tables { pages, entries } = tables;
    let lent = LentSave {
        page_size,
        save,
        pages: &*pages,
        entries: &*entries,
    };
    fill_numbers(&lent, work, freed, numbers);
    let room = Tables {
        pages: &mut *pages,
        entries: &mut *entries,
    };
    write_tables(page_size, save, work, freed, numbers, room);
    let list = LentList::new(page_size, &pages[..work.pages], &entries[..work.entries]);
    let first = work.plan.pages.saturating_sub(1);
    encode_pages(&list, first, buffer);
}

// The numbers of the pages to be written: the top page's, if one is kept, and the new pages'.
fn fill_numbers(lent: &LentSave, work: Work, freed: &[u32], numbers: &mut [u32])
    requires { Numberable lent.now.page_size lent.now.save freed.now work numbers.old }
    ensures { numbers.new ≡ sets numbers.old 0 (numbers_for lent.now.page_size lent.now.save freed.now) }
{
    if work.plan.pages == 0 {
        new_pages(lent, work, freed, numbers);
        return;
    }
    numbers[0] = work.plan.top;
    new_pages(lent, work, freed, &mut numbers[1..]);
}

// The numbers of the new pages: the plan is made again, this time with room for them.
fn new_pages(lent: &LentSave, work: Work, freed: &[u32], numbers: &mut [u32])
    requires { Doable lent.now.page_size lent.now.save freed.now work }
    ensures { numbers.new ≡ sets numbers.old 0 (plan_for lent.now.page_size lent.now.save freed.now).fresh }
{
    list_of(lent).plan(work.popped, freed, work.bump, numbers);
}

// The new list in the tables: the push list behind the entries kept, and then the numbers of the pages to be written behind the pages kept.
fn write_tables(
    page_size: PageSize,
    save: Save,
    work: Work,
    freed: &[u32],
    numbers: &[u32],
    tables: Tables,
)
    requires { Filled page_size (save_with save (tables_now tables)) freed.now work numbers.now }
    ensures { tables_after tables ≡ new_tables page_size (save_with save (tables_before tables)) freed.now }
{
    let Tables { pages, entries } = tables;
    let start = save.start;
    let c = max_pns_per_page(page_size);
    let mended = mends(c, start.pages, start.entries, work.popped);
    let low = start.pages - (work.plan.pushed - freed.len());
    let released = &pages[low..start.pages];
    write_pushes(freed, released, mended, entries, work.plan.entries);
    let first = work.plan.pages.saturating_sub(1);
    copy(&numbers[..work.written], pages, first);
}
