// Handing out a number.
ghost use Rattle.std.specs.Prelude.{◌≡◌, ◌+◌, ◌^◌, ◌<◌, ◌≤◌};
ghost use Rattle.page.specs.Growth.{max_bump};
ghost use Rattle.allocator.specs.OpenSave.{counters, count_up};
ghost use Rattle.allocator.specs.Answers.{handed_effect, counted_up, recorded_for};

use crate::save::{LentSave, OpenSave, grown_for};
use page::growth::MAX_BUMP;
use page::number::{Allocations, PageNumber};
use refusal::Refusal;

// The number handed out, and the open save after it.
#[derive(Clone, Copy)]
pub struct Handed {
    pub number: PageNumber,
    pub open: OpenSave,
}

// Hands out the next number: the list's entries from the end, and then the numbers past the bump. Document 01 asks for this form, which
// gives back the open save by value, under the one that is lent by `&mut`.
pub fn allocate(lent: &LentSave) -> Result<Handed, Refusal>
    ensures { handed_effect (counters lent.now.save) result ≡ count_up lent.now.page_size lent.now.save }
{
    if !lent.state_fits() {
        return Err(Refusal::State);
    }
    let start = lent.save.start;
    let open = lent.save.open;
    let handed = open.allocations.0;
    let entries = lent.entries;
    if handed < start.entries {
        let last = start.entries - 1 - handed;
        return Ok(counted_up(entries[last], open, open.length));
    }
    let past = handed - start.entries;
    let room = (MAX_BUMP - start.bump) as usize;
    if room <= past {
        return Err(Refusal::Limit);
    }
    let number = start.bump + past as u32;
    Ok(counted_up(number, open, recorded_for(open.length, number)))
}

// This number is handed out, and the recorded length is this one.
fn counted_up(number: u32, open: OpenSave, length: u32) -> Handed
    requires { «open».allocations.0 + 1 < 2 ^ 64 }
    ensures { result ≡ counted_up number «open» length }
{
    Handed {
        number: PageNumber(number),
        open: OpenSave {
            allocations: Allocations(open.allocations.0 + 1),
            length,
        },
    }
}

// The recorded length, grown where it does not cover the page.
fn recorded_for(length: u32, page: u32) -> u32
    requires { page ≤ max_bump }
    ensures { result ≡ recorded_for length page }
{
    if page < length {
        return length;
    }
    grown_for(page)
}
