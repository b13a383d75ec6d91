// The plan of a finish: the first number popped, then turns until there is room for the push list.
ghost use Rattle.std.specs.Prelude.{◌≡◌, ◌&&◌, ◌*◌, ◌-◌, ◌^◌, ◌≤◌, ◌<◌, eqb, length};
ghost use Rattle.page.specs.PageSize.{capacity};
ghost use Rattle.free_list.specs.Shape.{is_fragmented};
ghost use Rattle.preallocate.specs.Plan.{pages_after, first_plan, plan_of};
ghost use Rattle.preallocate.specs.Counts.{Poppable, Told, Makes};
ghost use Rattle.preallocate.specs.Steps.{first_popped, first_names, FirstPoppable, Started};

use crate::list::{LentList, mends};
pub use crate::turns::Plan;
use crate::turns::put;

// `popped`, `kept` and `last` count entries and pages of the list. None is a place in `freed`, or in `out`, which begins with the first new page.
impl<'a> LentList<'a> {
    // How many of the pages are left after `popped` pops.
    fn pages_after(&self, popped: usize) -> usize
        requires { popped ≤ length self.now.list.entries }
        ensures { result ≡ pages_after (capacity self.now.page_size) self.now.list popped }
    {
        if popped == 0 {
            return self.pages.len();
        }
        (self.entries.len() - popped).div_ceil(self.capacity)
    }

    // The plan after the first number is popped, if one is left.
    fn first_plan(&self, popped: usize, freed: &[u32], bump: usize, out: &mut [u32]) -> Plan
        requires { Poppable self.now.list popped bump }
        ensures { let c = capacity self.now.page_size in Started c self.now.list (first_plan c self.now.list popped freed.now bump) out.old result out.new }
    {
        let pages = self.pages;
        let entries = self.entries;
        let kept = self.pages_after(popped);
        let none = Plan {
            pages: 0,
            entries: 0,
            pushed: freed.len() + (pages.len() - kept),
            fresh: 0,
            bump,
            top: 0,
        };
        if entries.len() <= popped {
            return none;
        }
        let last = entries.len() - (popped + 1);
        if mends(self.capacity, pages.len(), entries.len(), popped) {
            return Plan {
                pages: pages.len() - 1,
                entries: last,
                pushed: none.pushed + 2,
                top: entries[last],
                ..none
            };
        }
        self.pop_first(kept, last, none, out)
    }

    // The plan after the number at place `last` is popped from the top one of `kept` pages: it becomes that page's number, or a new
    // page where it leaves that page empty.
    fn pop_first(&self, kept: usize, last: usize, none: Plan, out: &mut [u32]) -> Plan
        requires { FirstPoppable (capacity self.now.page_size) self.now.list kept last none }
        ensures { let c = capacity self.now.page_size in Told (first_popped c self.now.list kept last none) 0 (first_names c self.now.list kept last) out.old result out.new }
    {
        let entries = self.entries;
        let number = entries[last];
        let renumbered = Plan {
            pages: kept,
            entries: last,
            pushed: none.pushed + 1,
            top: number,
            ..none
        };
        if last != self.capacity * (kept - 1) {
            return renumbered;
        }
        put(out, 0, number);
        Plan {
            pages: kept - 1,
            fresh: 1,
            top: self.under_top(kept),
            ..renumbered
        }
    }

    // The plan of a finish. `popped` of the list's entries were handed out, and `freed` are the numbers freed. The new pages' numbers go
    // to `out` as far as it reaches: with an empty slice this only counts.
    pub fn plan(&self, popped: usize, freed: &[u32], bump: usize, out: &mut [u32]) -> Plan
        requires { Poppable self.now.list popped bump }
        ensures { Makes (plan_of (capacity self.now.page_size) self.now.list popped freed.now bump) out.old result out.new }
    {
        let first = self.first_plan(popped, freed, bump, out);
        self.make_room(out, first)
    }
}
