// The turns that a finish takes while its room is short of the push list: swapping the head and taking a page hand over to each other.
//
// In nomt's words, beside ours: what a save pops is first dropped from the list (`discard`; ours: `popped`), and `commit` then makes the
// new list: `preallocate` (ours: `plan`) finds out by `pop` (`take_one`, `swap_head`) how many new list pages it takes, and
// `push_and_encode` (in the crate `finisher`) pushes and encodes.
//
// A store that breaks down before the save's last write must still read as the list that it had. So no page that the old list uses is
// written with new content (copy on write): a list page that changes gets another number, and its old one is free only in the new list.
// For the same reason nothing that a save frees, its own freed numbers or such old page numbers, is used again within that save: all of
// it goes to the push list. The new list needs pages for the push list. Their numbers are popped from the old list, where free numbers
// are, before the bump is raised, which would grow the store. Each pop makes the list shorter and may bring another page to the top,
// which is then changed too, and whose number joins the push list: so pushes make pops and pops make pushes, and the turns go on until
// the room is enough. Where one place is missing, the pop that gets a new page frees a place too, so that one page more is there than is
// needed: that list is *fragmented*, its head has one entry and the page under it one less than it could. The next save mends it.
ghost use Rattle.std.specs.Prelude.{◌≡◌, true, false, [], ◌∷◌, ◌+◌, ◌*◌, ◌^◌, ◌≤◌, ◌<◌, ◌-◌, length, set, get_or};
ghost use Rattle.page.specs.PageSize.{capacity};
ghost use Rattle.preallocate.specs.Counts.{narrow, Told};
ghost use Rattle.preallocate.specs.Steps.{room_of, whole_of, top_swapped, bump_taken, Packed, Small, Due, Took, Planned, Turned};

use crate::list::LentList;

// How far a finish has come, in numbers. A plan comes in by value and goes out by value, beside `out`, which is lent: in one struct both would be
// lent, and each clause would speak of the plan before and after. What a turn asks of a plan (`Due`) is no invariant of it: a turn that ends has room.
#[derive(Clone, Copy)]
pub struct Plan {
    // Pages kept.
    pub pages: usize,
    // Entries left on them.
    pub entries: usize,
    // Length of the push list.
    pub pushed: usize,
    // New pages.
    pub fresh: usize,
    // The next number past the list. A plan is made even where it is past 32 bits, and then refused.
    pub bump: usize,
    // The number of the top page kept. Where none is kept nothing reads it, and it is 0, which is no page.
    pub top: u32,
}

// How many calls of each nest before the plan is handed back as it stands: the stack that they take does not grow with the list.
const NESTED: usize = 64;

// Stores x at i, where that is within `out`.
pub(crate) fn put(out: &mut [u32], i: usize, x: u32)
    ensures { out.new ≡ set out.old i x }
{
    // What is written through `get_mut` is not known afterwards, so the place is compared with the length.
    if i < out.len() {
        out[i] = x;
    }
}

// x where it has 32 bits, else 0.
fn low(x: usize) -> u32
    ensures { result ≡ narrow x }
{
    u32::try_from(x).unwrap_or(0)
}

// Takes the bump as a new page.
fn take_bump(out: &mut [u32], p: Plan) -> Plan
    requires { (p.fresh + 1 < 2 ^ 64) × (p.bump + 1 < 2 ^ 64) }
    ensures { Told (bump_taken p) p.fresh (p.bump ∷ []) out.old result out.new }
{
    put(out, p.fresh, low(p.bump));
    Plan {
        fresh: p.fresh + 1,
        bump: p.bump + 1,
        ..p
    }
}

impl<'a> LentList<'a> {
    // Free places in the top page, and a page's capacity for each new page.
    fn room(&self, p: Plan) -> usize
        requires { Small (capacity self.now.page_size) p × Packed (capacity self.now.page_size) self.now.list p }
        ensures { result ≡ room_of (capacity self.now.page_size) p }
    {
        self.capacity * (p.pages + p.fresh) - p.entries
    }

    // Whether a whole page has come to the top.
    fn is_whole(&self, p: Plan) -> bool
        requires { capacity self.now.page_size * p.pages < 2 ^ 64 }
        ensures { result ≡ whole_of (capacity self.now.page_size) p }
    {
        1 <= p.pages && p.entries == self.capacity * p.pages
    }

    // The number of the page under the top one of `kept` pages; where there is none, that page's own.
    pub(crate) fn under_top(&self, kept: usize) -> u32
        requires { (1 ≤ kept) × (kept ≤ length self.now.list.pages) }
        ensures { result ≡ get_or self.now.list.pages (kept - 2) 0 }
    {
        let pages = self.pages;
        pages[kept.saturating_sub(2)]
    }

    // Takes the last entry, and with it the page that this leaves empty.
    fn take_entry(&self, out: &mut [u32], p: Plan) -> Plan
        requires { Due (capacity self.now.page_size) self.now.list p × (1 ≤ p.entries) }
        ensures { Took (capacity self.now.page_size) self.now.list p out.old result out.new }
    {
        let entries = self.entries;
        let last = p.entries - 1;
        put(out, p.fresh, entries[last]);
        if last != self.capacity * (p.pages - 1) {
            return Plan {
                entries: last,
                fresh: p.fresh + 1,
                ..p
            };
        }
        put(out, p.fresh + 1, p.top);
        Plan {
            pages: p.pages - 1,
            entries: last,
            fresh: p.fresh + 2,
            top: self.under_top(p.pages),
            ..p
        }
    }

    // Takes one page: the last entry, or else the bump.
    fn take_one(&self, out: &mut [u32], p: Plan) -> Plan
        requires { Due (capacity self.now.page_size) self.now.list p }
        ensures { Took (capacity self.now.page_size) self.now.list p out.old result out.new }
    {
        if p.entries == 0 {
            take_bump(out, p)
        } else {
            self.take_entry(out, p)
        }
    }

    // The top page's number joins the push list, and its last entry becomes its number.
    fn top_swapped(&self, p: Plan) -> Plan
        requires { (1 ≤ p.entries) × (p.entries ≤ length self.now.list.entries) × (p.pushed + 1 < 2 ^ 64) }
        ensures { result ≡ top_swapped self.now.list p }
    {
        let entries = self.entries;
        let last = p.entries - 1;
        Plan {
            entries: last,
            pushed: p.pushed + 1,
            top: entries[last],
            ..p
        }
    }

    // Swaps the head, and then a page is taken. Document 01 asks that this and `take_page` call one another, so it is no plain loop.
    #[cycle(swap_head_take_page)]
    fn swap_head(&self, out: &mut [u32], p: Plan, nested: usize) -> Plan
        requires { Due (capacity self.now.page_size) self.now.list p × (whole_of (capacity self.now.page_size) p ≡ true) }
        ensures { Turned (capacity self.now.page_size) self.now.list p out.old result out.new }
    {
        let swapped = self.top_swapped(p);
        self.take_page(out, swapped, nested)
    }

    // Takes pages until the room is enough, or until a whole page comes to the top: then the head is swapped. As a call keeps its frame, the two
    // nest only so many.
    #[cycle(swap_head_take_page)]
    fn take_page(&self, out: &mut [u32], p: Plan, nested: usize) -> Plan
        requires { Due (capacity self.now.page_size) self.now.list p × (whole_of (capacity self.now.page_size) p ≡ false) }
        ensures { Turned (capacity self.now.page_size) self.now.list p out.old result out.new }
    {
        let mut q = self.take_one(out, p);
        // How many turns it takes is known only when the room is enough, so there is no range to go over.
        while self.room(q) < q.pushed {
            if self.is_whole(q) {
                if nested == 0 {
                    return q;
                }
                return self.swap_head(out, q, nested - 1);
            }
            q = self.take_one(out, q);
        }
        q
    }

    // Goes on from where the plan stands until the room is enough: the two, as often as it takes.
    pub(crate) fn make_room(&self, out: &mut [u32], p: Plan) -> Plan
        requires { Packed (capacity self.now.page_size) self.now.list p × Small (capacity self.now.page_size) p }
        ensures { Planned (capacity self.now.page_size) self.now.list p out.old result out.new }
    {
        let mut q = p;
        while self.room(q) < q.pushed {
            q = if self.is_whole(q) {
                self.swap_head(out, q, NESTED)
            } else {
                self.take_page(out, q, NESTED)
            };
        }
        q
    }
}
