// The open save: handing out numbers, and finishing.
ghost use Rattle.std.specs.Prelude.{◌≡◌, [], ◌∷◌};
ghost use Rattle.calls.specs.Saves.{save_of, handed, handed_told, HandsOut, Finishes};

use crate::told::{Told, report};
use allocator::allocate::Handed;
use allocator::save::{OpenSave, Save, Start};
use finisher::finish::StoreMeta;
use free_list::tables::Tables;
use page::number::{Allocations, PageNumber};
use page::size::PageSize;
use refusal::Refusal;

impl Told for Handed {
    ghost values = { handed_told };

    fn tell(self, out: &mut [u64; 8]) {
        out[0] = u64::from(self.number.0);
        out[1] = self.open.allocations.0 as u64;
        out[2] = u64::from(self.open.length);
    }
}

impl Told for StoreMeta {
    ghost values = { λ m. m.head.0 ∷ m.bump ∷ m.length ∷ m.pages ∷ m.entries ∷ m.written ∷ [] };

    fn tell(self, out: &mut [u64; 8]) {
        out[0] = u64::from(self.head.0);
        out[1] = u64::from(self.bump);
        out[2] = u64::from(self.length);
        out[3] = self.pages as u64;
        out[4] = self.entries as u64;
        out[5] = self.written as u64;
    }
}

// An open save from its numbers.
fn save_of(bump: u32, length: u32, p: u64, l: u64, count: u64) -> Save
    ensures { result ≡ save_of bump length p l count }
{
    Save {
        start: Start {
            bump,
            pages: p as usize,
            entries: l as usize,
        },
        open: OpenSave {
            allocations: Allocations(count as usize),
            length,
        },
    }
}

// The number that an open save handed out, beside the save after it.
fn handed(answer: Result<PageNumber, Refusal>, open: OpenSave) -> Result<Handed, Refusal>
    ensures { result ≡ handed answer «open» }
{
    let number = answer?;
    Ok(Handed { number, open })
}

// out: the number, the count of numbers handed out, the recorded length.
pub fn hand_out(
    page_size: PageSize,
    bump: u32,
    length: u32,
    p: u64,
    l: u64,
    count: u64,
    pages: &[u32],
    entries: &[u32],
    out: &mut [u64; 8],
) -> u32
    ensures { HandsOut page_size bump length p l count pages entries out result }
{
    let save = save_of(bump, length, p, l, count);
    let mut open = save.open;
    let answer = open.hand_out(page_size, save.start, pages, entries);
    report(handed(answer, open), out)
}

// out: head, bump, recorded length, P, L, pages written. Refusal 8: the place of the freed number.
pub fn finish(
    page_size: PageSize,
    bump: u32,
    length: u32,
    p: u64,
    l: u64,
    count: u64,
    pages: &mut [u32],
    entries: &mut [u32],
    freed: &[u32],
    buffer: &mut [u8],
    numbers: &mut [u32],
    map: &mut [u8],
    out: &mut [u64; 8],
) -> u32
    ensures { Finishes page_size bump length p l count pages entries freed buffer numbers map out result }
{
    let save = save_of(bump, length, p, l, count);
    let tables = Tables { pages, entries };
    report(
        finisher::finish::finish(page_size, save, tables, freed, buffer, numbers, map),
        out,
    )
}
