// Finishing a save: the new list in the tables, its pages in the buffer, their numbers in the number list.
ghost use Rattle.std.specs.Prelude.{◌≡◌, cond, ◌-◌, ◌≤◌, ltb, length, get_or};
ghost use Rattle.refusal.specs.Effect.{before, effect};
ghost use Rattle.free_list.specs.Reading.{tables_before};
ghost use Rattle.page.specs.Growth.{max_bump, grown};
ghost use Rattle.finisher.specs.Finish.{finish_into, finish_room};
ghost use Rattle.finisher.specs.Answers.{save_with, lent_after, meta_answer, finish_outcome};
ghost use Rattle.finisher.specs.Steps.{answer_of};

use crate::carry::carry_out;
use crate::judge::{Room, Work, judge};
use allocator::save::{LentSave, Save, grown_for};
use free_list::tables::Tables;
use page::number::PageNumber;
use page::size::PageSize;
use refusal::Refusal;

// The store after a save: the new head (0 if none), the bump, the recorded length, the pages and entries of the list, and how many
// pages are to be written.
#[derive(Clone, Copy)]
pub struct StoreMeta {
    pub head: PageNumber,
    pub bump: u32,
    pub length: u32,
    pub pages: usize,
    pub entries: usize,
    pub written: usize,
}

// Finishes the save. `freed` are the numbers freed; the tables then hold the new list, the first bytes of `buffer` the pages to be
// written, and the first places of `numbers` their page numbers. A refusal leaves all four as they were. Once the map is known to have a bit
// for each number below the bump, its bytes in use are zero whatever comes.
pub fn finish(
    page_size: PageSize,
    save: Save,
    tables: Tables,
    freed: &[u32],
    buffer: &mut [u8],
    numbers: &mut [u32],
    map: &mut [u8],
) -> Result<StoreMeta, Refusal>
    ensures { effect (finish_outcome result) (lent_after tables buffer numbers map) ≡ finish_into page_size (save_with save (tables_before tables)) freed.now (finish_room before buffer numbers map) }
{
    let Tables { pages, entries } = tables;
    let room = Room {
        bytes: buffer.len(),
        numbers: numbers.len(),
    };
    let lent = LentSave {
        page_size,
        save,
        pages: &*pages,
        entries: &*entries,
    };
    let work = judge(&lent, freed, room, map)?;
    let written = Tables {
        pages: &mut *pages,
        entries,
    };
    carry_out(page_size, save, work, freed, written, buffer, numbers);
    Ok(store_after(save.open.length, work, pages))
}

// The store after this work, of which this length was recorded.
fn store_after(recorded: u32, work: Work, pages: &[u32]) -> StoreMeta
    requires { (work.plan.bump ≤ max_bump) × (work.pages ≤ length pages.now) }
    ensures { meta_answer result ≡ answer_of recorded work pages.now }
{
    let bump = work.plan.bump as u32;
    StoreMeta {
        head: head_of(&pages[..work.pages]),
        bump,
        length: recorded_after(recorded, bump),
        pages: work.pages,
        entries: work.entries,
        written: work.written,
    }
}

// The number of the head page, 0 if the list has no page.
fn head_of(pages: &[u32]) -> PageNumber
    ensures { result.0 ≡ get_or pages.now (length pages.now - 1) 0 }
{
    PageNumber(pages.last().copied().unwrap_or(0))
}

// The recorded length, grown where it does not cover the bump: it may be the bump, where a page that is handed out lies below it.
fn recorded_after(recorded: u32, bump: u32) -> u32
    requires { bump ≤ max_bump }
    ensures { result ≡ cond (ltb recorded bump) (grown bump) recorded }
{
    if recorded < bump {
        return grown_for(bump);
    }
    recorded
}
