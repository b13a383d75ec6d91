// Whether a number stands twice in a list, judged on its pages: the tables may be too short for it.
ghost use Rattle.std.specs.Prelude.{◌≡◌, ◌&&◌, ◌*◌, ◌+◌, ◌≤◌, ◌∷◌, true, length};
ghost use Rattle.laws.specs.Counting.{all_different, all_below};
ghost use Rattle.bit_map.specs.BitMap.{has_bits, cleared};
ghost use Rattle.bit_map.specs.Marking.{mark_all, bytes_zero};
ghost use Rattle.page.specs.Pages.{page_count};
ghost use Rattle.free_list.specs.ListPages.{count_of, entries_of};
ghost use Rattle.free_list.specs.Reading.{numbers_of};
ghost use Rattle.free_list.specs.Steps.{chain_from, chain_numbers, Judgeable};

use crate::page_ref::FreeListPageRef;
use crate::walk::ListCounts;
use bit_map::map::clear;
use bit_map::marking::{is_few, mark_new, zero_byte};
use page::little_endian::LittleEndian;
use page::store::Store;

// Whether all numbers of the list of `list.pages` pages from page `head` down differ, and are pages of the store. No number is marked
// afterwards, whatever the map held.
pub(crate) fn numbers_differ(store: &Store, head: u32, list: ListCounts, map: &mut [u8]) -> bool
    requires { Judgeable store.now.page_size store.now.bytes head list (length map.old) }
    ensures differ { result ≡ all_below (page_count store.now.page_size store.now.bytes) (numbers_of (chain_from store.now.page_size store.now.bytes list.pages head)) && all_different (numbers_of (chain_from store.now.page_size store.now.bytes list.pages head)) }
    ensures map { map.new ≡ cleared (page_count store.now.page_size store.now.bytes) map.old }
{
    let limit = store.page_count() as usize;
    clear(limit, map);
    let differ = mark_list(store, head, list, map);
    if is_few(list.entries, limit) {
        zero_list(store, head, list, map);
    } else {
        clear(limit, map);
    }
    differ
}

// Marks the numbers of the list's pages, and their entries, up to the first that is marked already or no page of the store. Returns whether
// there is none.
fn mark_list(store: &Store, head: u32, list: ListCounts, map: &mut [u8]) -> bool
    requires { Judgeable store.now.page_size store.now.bytes head list (length map.old) }
    ensures { record { all = result; map = map.new } ≡ mark_all (page_count store.now.page_size store.now.bytes) map.old (chain_numbers store.now.page_size store.now.bytes list.pages head) }
{
    let limit = store.page_count() as usize;
    let mut page = head;
    for _ in 0..list.pages {
        let bytes = store.page(page);
        if !mark_page(limit, page, bytes, map) {
            return false;
        }
        page = FreeListPageRef::new(bytes).prev_pn().0;
    }
    true
}

// The same of one page: its number, and then its entries. It is kept apart for its loop, as `mark_all` of `bit_map`.
#[inline(never)]
fn mark_page(limit: usize, page: u32, bytes: &[u8], map: &mut [u8]) -> bool
    requires { (6 + 4 * count_of bytes.now ≤ length bytes.now) × (has_bits limit (length map.old) ≡ true) }
    ensures { record { all = result; map = map.new } ≡ mark_all limit map.old (page ∷ entries_of bytes.now) }
{
    if !mark_new(limit, page, map) {
        return false;
    }
    let count = usize::from(FreeListPageRef::new(bytes).item_count());
    for i in 0..count {
        if !mark_new(limit, u32::read_at(bytes, 6 + 4 * i), map) {
            return false;
        }
    }
    true
}

// Makes the bytes of the list's numbers zero.
fn zero_list(store: &Store, head: u32, list: ListCounts, map: &mut [u8])
    requires { Judgeable store.now.page_size store.now.bytes head list (length map.old) }
    ensures { map.new ≡ bytes_zero (page_count store.now.page_size store.now.bytes) map.old (chain_numbers store.now.page_size store.now.bytes list.pages head) }
{
    let limit = store.page_count() as usize;
    let mut page = head;
    for _ in 0..list.pages {
        let bytes = store.page(page);
        zero_page(limit, page, bytes, map);
        page = FreeListPageRef::new(bytes).prev_pn().0;
    }
}

// The same of one page: of its number, and of its entries.
fn zero_page(limit: usize, page: u32, bytes: &[u8], map: &mut [u8])
    requires { (6 + 4 * count_of bytes.now ≤ length bytes.now) × (has_bits limit (length map.old) ≡ true) }
    ensures { map.new ≡ bytes_zero limit map.old (page ∷ entries_of bytes.now) }
{
    zero_byte(limit, page, map);
    let count = usize::from(FreeListPageRef::new(bytes).item_count());
    for i in 0..count {
        zero_byte(limit, u32::read_at(bytes, 6 + 4 * i), map);
    }
}
