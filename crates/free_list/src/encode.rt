// Making a list page.
ghost use Rattle.std.specs.Prelude.{◌≡◌, ◌+◌, ◌*◌, ◌^◌, ◌<◌, ◌≤◌, length};
ghost use Rattle.free_list.specs.ListPages.{encode_list_page, page_within};

use crate::list_page::entry_places;
use page::little_endian::{LittleEndian, write_numbers};
use page::number::PageNumber;

// Makes a list page of all the lent bytes, with as many of the entries as it has places for, and as its count of 16 bits allows. Fewer
// bytes than a header stay as they were.
#[tactic(auto, using(std::proofs::lemmas::List::take_min), unfolding(crate::specs::ListPages::page_within, crate::specs::ListPages::places, page::specs::PageSize::capacity))]
pub fn encode_free_list_page(prev: PageNumber, entries: &[u32], page: &mut [u8])
    ensures { page.new ≡ page_within prev.0 entries.now page.old }
{
    if page.len() < 6 {
        return;
    }
    let places = entry_places(page.len()).min(usize::from(u16::MAX));
    let n = places.min(entries.len());
    write_page(prev, &entries[..n], page);
}

// Makes a page of entries that fit it.
fn write_page(prev: PageNumber, entries: &[u32], page: &mut [u8])
    requires { (6 + 4 * length entries.now ≤ length page.old) × (length entries.now < 2 ^ 16) }
    ensures { page.new ≡ encode_list_page (length page.old) prev.0 entries.now }
{
    prev.0.write_at(page, 0);
    (entries.len() as u16).write_at(page, 4);
    write_numbers(entries, page, 6);
    page[6 + 4 * entries.len()..].fill(0);
}
