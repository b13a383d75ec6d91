// How many pages a value takes.
ghost use Rattle.std.specs.Prelude.{◌≡◌, ◌≤◌};
ghost use Rattle.overflow.specs.Totals.{max_size, raw_pages, spare_room, page_total, total_outcome};
ghost use Rattle.overflow.specs.Steps.{IsTotals, Room, total_of_rule};

use page::size::PageSize;
use refusal::Refusal;

// The largest value, at the panel's page size and at all others.
const MAX_PANEL_VALUE_SIZE: usize = 0x10_0000;

const MAX_OVERFLOW_VALUE_SIZE: usize = 0x2000_0000;

// A cell holds the numbers of so many pages.
pub const MAX_OVERFLOW_CELL_NODE_POINTERS: usize = 15;

// The pages of a value: how many there are, how many of their numbers go to the cell, and the spare room; and how many numbers a reader's table
// must have place for.
#[derive(Clone, Copy)]
pub struct PageTotal {
    pub total: usize,
    pub cell: usize,
    pub spare: usize,
    pub room: usize,
}

// The pages of a value, or refusal 10 for a size that no value has.
pub fn page_total(page_size: PageSize, size: u64) -> Result<PageTotal, Refusal>
    ensures { total_outcome result ≡ page_total page_size size }
{
    if size == 0 || (max_overflow_value_size(page_size) as u64) < size {
        return Err(Refusal::Size);
    }
    let size = size as usize;
    let totals = total_needed_pages(page_size, size);
    let total = totals.new;
    let cell = total.min(MAX_OVERFLOW_CELL_NODE_POINTERS);
    let spare = spare_room(page_size, size, total);
    Ok(PageTotal {
        total,
        cell,
        spare,
        room: totals.old,
    })
}

// The new total of a value and the old one.
#[derive(Clone, Copy)]
pub(crate) struct Totals {
    pub new: usize,
    pub old: usize,
}

// The total by which the pages of a value are written: the new one, or the old one, as the Rust writes them. Contracts name the two, so this is an
// enum and no closure.
#[derive(Clone, Copy)]
pub enum TotalRule {
    New,
    Old,
}

impl TotalRule {
    // The one of the two totals that is taken by this rule.
    pub(crate) fn of(self, totals: Totals) -> usize
        ensures { result ≡ total_of_rule self totals }
    {
        match self {
            TotalRule::New => totals.new,
            TotalRule::Old => totals.old,
        }
    }
}

// The largest value at this page size.
#[tactic(auto, unfolding(crate::specs::Totals::max_size))]
pub(crate) fn max_overflow_value_size(page_size: PageSize) -> usize
    ensures { result ≡ max_size page_size }
{
    if page_size.bytes() == PageSize::panel().bytes() {
        MAX_PANEL_VALUE_SIZE
    } else {
        MAX_OVERFLOW_VALUE_SIZE
    }
}

// The two totals: how many pages a value takes, with the numbers that the cell has no place for. They are rounded in different ways, where the
// pages that the bytes take have no room for these. That a value can have the size was tested, and refused with 10: a type for such sizes would be
// made by that test alone.
#[tactic(auto, using(page::proofs::PageSizeLaws::page_least, crate::proofs::TotalsLaws::raw_facts), unfolding(crate::specs::Totals::old_total))]
pub(crate) fn total_needed_pages(page_size: PageSize, size: usize) -> Totals
    requires some { 1 ≤ size }
    requires few { size ≤ max_size page_size }
    ensures totals { IsTotals page_size size result }
    ensures room { Room page_size size result.new }
{
    let body = page_size.bytes() - 4;
    let raw = needed_pages(page_size, size);
    if raw <= MAX_OVERFLOW_CELL_NODE_POINTERS {
        return Totals { new: raw, old: raw };
    }
    let numbers = raw - MAX_OVERFLOW_CELL_NODE_POINTERS;
    let left = body * raw - size;
    if numbers <= left / 4 {
        return Totals { new: raw, old: raw };
    }
    let missing = size + 4 * numbers - body * raw;
    let more = (missing + (body - 5)) / (body - 4);
    let new = raw + more;
    // The Rust rounds up two bytes sooner.
    if (body - 4) * more <= missing + 1 {
        Totals { new, old: new + 1 }
    } else {
        Totals { new, old: new }
    }
}

// What the pages of a value leave of their bodies, behind its bytes and the numbers that the cell has no place for.
#[tactic(auto, using(page::proofs::PageSizeLaws::page_least), unfolding(crate::specs::Totals::spare_room))]
fn spare_room(page_size: PageSize, size: usize, total: usize) -> usize
    requires { Room page_size size total }
    ensures { result ≡ spare_room page_size size total }
{
    let left = (page_size.bytes() - 4) * total - size;
    if total <= MAX_OVERFLOW_CELL_NODE_POINTERS {
        return left;
    }
    left - 4 * (total - MAX_OVERFLOW_CELL_NODE_POINTERS)
}

// How many pages the bytes alone would take.
#[tactic(auto, using(page::proofs::PageSizeLaws::page_least))]
fn needed_pages(page_size: PageSize, size: usize) -> usize
    requires { size ≤ max_size page_size }
    ensures { result ≡ raw_pages page_size size }
{
    let body = page_size.bytes() - 4;
    (size + (body - 1)) / body
}
