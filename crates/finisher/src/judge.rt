// What a finish comes to, in numbers: its work, or the refusal.
ghost use Rattle.std.specs.Prelude.{◌≡◌, ◌&&◌, ◌*◌, ◌^◌, ◌++◌, ◌≤◌, ◌<◌, ℕ, true, leb, eqb, length, get_or};
ghost use Rattle.laws.specs.Counting.{all_different, all_below};
ghost use Rattle.refusal.specs.Effect.{effect};
ghost use Rattle.bit_map.specs.BitMap.{cleared};
ghost use Rattle.page.specs.PageSize.{IsPageSize};
ghost use Rattle.allocator.specs.OpenSave.{state_fits, list_of, bumped};
ghost use Rattle.finisher.specs.Finish.{left_numbers, admitted};
ghost use Rattle.finisher.specs.Steps.{work_of, same_work, judged_outcome, judged, work_told, Begun, Admitted};

use crate::tables::first_bad;
use allocator::save::{LentSave, Start};
use bit_map::map::has_bits;
use bit_map::marking::all_differ;
use page::growth::MAX_BUMP;
use preallocate::list::LentList;
use preallocate::turns::Plan;
use refusal::Refusal;

// The work of a finish.
#[derive(Clone, Copy)]
pub(crate) struct Work {
    // How many entries were popped, and the bump after the numbers handed out.
    pub(crate) popped: usize,
    pub(crate) bump: usize,
    // The plan. Where nothing was popped and nothing freed, all is kept.
    pub(crate) plan: Plan,
    // The pages and entries of the new list, and how many pages are written.
    pub(crate) pages: usize,
    pub(crate) entries: usize,
    pub(crate) written: usize,
}

// How much is lent for the pages to write: so many bytes, and places for so many numbers.
#[derive(Clone, Copy)]
pub(crate) struct Room {
    pub(crate) bytes: usize,
    pub(crate) numbers: usize,
}

// Judges a finish for which so much room and this map are lent, in the order of the refusals. That the page size is one is told too, as callers
// see the save's value alone.
pub(crate) fn judge(
    lent: &LentSave,
    freed: &[u32],
    room: Room,
    map: &mut [u8],
) -> Result<Work, Refusal>
    ensures judged { effect (judged_outcome result) map.new ≡ judged lent.now.page_size lent.now.save freed.now room map.old }
    ensures size { IsPageSize lent.now.page_size }
{
    let size = lent.page_size.bytes();
    let work = admit(lent, freed, map)?;
    if !numbers_differ(lent, work, freed, map) {
        return Err(Refusal::Repeat);
    }
    if !tables_fit(work, lent.pages.len(), lent.entries.len()) {
        return Err(Refusal::Tables);
    }
    if !pages_fit(size, work.written, room) {
        return Err(Refusal::Buffer);
    }
    Ok(work)
}

// What is judged before anything is written.
fn admit(lent: &LentSave, freed: &[u32], map: &[u8]) -> Result<Work, Refusal>
    requires { IsPageSize lent.now.page_size }
    ensures { judged_outcome result ≡ work_told lent.now.page_size lent.now.save freed.now (admitted lent.now.page_size lent.now.save freed.now (length map.now)) }
{
    if !lent.state_fits() {
        return Err(Refusal::State);
    }
    let start = lent.save.start;
    let handed = lent.save.open.allocations.0;
    let popped = handed.min(start.entries);
    let past = handed - popped;
    if past > (MAX_BUMP - start.bump) as usize {
        return Err(Refusal::Limit);
    }
    let bump = start.bump as usize + past;
    let work = measure(lent, popped, bump, freed);
    if work.plan.bump > MAX_BUMP as usize {
        return Err(Refusal::Limit);
    }
    if let Some(bad) = first_bad(freed, bump) {
        return Err(Refusal::Freed(bad));
    }
    if !has_bits(bump, map) {
        return Err(Refusal::Map);
    }
    Ok(work)
}

// Whether the numbers that were not handed out lie below the bump, and with the freed ones all differ. No number is marked in the map
// afterwards, whatever it held.
fn numbers_differ(lent: &LentSave, work: Work, freed: &[u32], map: &mut [u8]) -> bool
    requires { Admitted lent.now.page_size lent.now.save freed.now work (length map.old) }
    ensures differ { result ≡ all_below (bumped lent.now.save) (left_numbers lent.now.save) && all_different (left_numbers lent.now.save ++ freed.now) }
    ensures map { map.new ≡ cleared (bumped lent.now.save) map.old }
{
    let start = lent.save.start;
    let pages = lent.pages;
    let entries = lent.entries;
    let listed = &pages[..start.pages];
    let left = &entries[..start.entries - work.popped];
    all_differ(work.bump, listed, left, freed, map)
}

// The list of a save that stands.
pub(crate) fn list_of<'a>(lent: &LentSave<'a>) -> LentList<'a>
    requires { state_fits lent.now.page_size lent.now.save ≡ true }
    ensures list { result ≡ record { page_size = lent.now.page_size; list = list_of lent.now.save } }
    ensures fits { (i : ℕ) → get_or (list_of lent.now.save).entries i 0 < 2 ^ 32 }
{
    let start = lent.save.start;
    let pages = lent.pages;
    let entries = lent.entries;
    LentList::new(
        lent.page_size,
        &pages[..start.pages],
        &entries[..start.entries],
    )
}

// The work of a save with so many pops and this bump. Pops are entries of the list; their count is no place in `freed`.
fn measure(lent: &LentSave, popped: usize, bump: usize, freed: &[u32]) -> Work
    requires { Begun lent.now.page_size lent.now.save popped bump }
    ensures { result ≡ work_of lent.now.page_size lent.now.save freed.now }
{
    if is_unchanged(popped, freed) {
        return nothing_to_do(lent.save.start, bump);
    }
    let plan = list_of(lent).plan(popped, freed, bump, &mut []);
    let pages = plan.pages + plan.fresh;
    Work {
        popped,
        bump,
        plan,
        pages,
        entries: plan.entries + plan.pushed,
        written: pages - plan.pages.saturating_sub(1),
    }
}

// Whether nothing was popped and nothing freed: two counts.
fn is_unchanged(popped: usize, freed: &[u32]) -> bool
    ensures { result ≡ eqb popped 0 && eqb (length freed.now) 0 }
{
    popped == 0 && freed.is_empty()
}

// The work where nothing was popped and nothing freed: all is kept.
fn nothing_to_do(start: Start, bump: usize) -> Work
    ensures { result ≡ same_work start bump }
{
    Work {
        popped: 0,
        bump,
        plan: Plan {
            pages: start.pages,
            entries: start.entries,
            pushed: 0,
            fresh: 0,
            bump,
            top: 0,
        },
        pages: start.pages,
        entries: start.entries,
        written: 0,
    }
}

// Whether the new list has room in the tables, which have so many places.
fn tables_fit(work: Work, pages: usize, entries: usize) -> bool
    ensures { result ≡ leb work.pages pages && leb work.entries entries }
{
    work.pages <= pages && work.entries <= entries
}

// Whether n pages of so many bytes have room, and their numbers.
fn pages_fit(size: usize, n: usize, room: Room) -> bool
    requires { 1 ≤ size }
    ensures { result ≡ leb (size * n) room.bytes && leb n room.numbers }
{
    n <= room.bytes / size && n <= room.numbers
}
