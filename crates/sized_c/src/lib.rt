// The operations of the C interface at any page size, as a static library for the comparison with the Rust.
//
// A page has so many words of four bytes more than the four that the least page has.
// Each function is written out, one call of `calls` in each, since C calls it by its name; `mopsienna_c` has the same at its two page
// sizes.
#![tactic(auto)]

ghost use Rattle.page.specs.PageSize.{page_size_of};
ghost use Rattle.calls.specs.Lists.{ReadsList};
ghost use Rattle.calls.specs.Lookups.{LooksUp};
ghost use Rattle.calls.specs.Saves.{HandsOut, Finishes};
ghost use Rattle.calls.specs.Totals.{TellsTotal};
ghost use Rattle.calls.specs.Values.{WritesPage, WritesOldPage, EncodesCell, DecodesCell, ReadsValue, DeletesValue};

use overflow::total::TotalRule;
use page::size::PageSize;

#[unsafe(no_mangle)]
pub extern "C" fn sized_read_list(
    words: u64,
    store: &[u8],
    head: u32,
    pages: &mut [u32],
    entries: &mut [u32],
    map: &mut [u8],
    out: &mut [u64; 8],
) -> u32
    ensures { ReadsList (page_size_of words) store head pages entries map out result }
{
    calls::lists::read_list(
        PageSize::of_words(words as usize),
        store,
        head,
        pages,
        entries,
        map,
        out,
    )
}

#[unsafe(no_mangle)]
pub extern "C" fn sized_lookup(
    words: u64,
    numbers: &[u32],
    pending: &[u8],
    store: &[u8],
    page: u32,
    out: &mut [u64; 8],
) -> u32
    ensures { LooksUp (page_size_of words) numbers pending store page out result }
{
    calls::lookups::lookup(
        PageSize::of_words(words as usize),
        numbers,
        pending,
        store,
        page,
        out,
    )
}

#[unsafe(no_mangle)]
pub extern "C" fn sized_hand_out(
    words: u64,
    bump: u32,
    length: u32,
    p: u64,
    l: u64,
    count: u64,
    pages: &[u32],
    entries: &[u32],
    out: &mut [u64; 8],
) -> u32
    ensures { HandsOut (page_size_of words) bump length p l count pages entries out result }
{
    calls::saves::hand_out(
        PageSize::of_words(words as usize),
        bump,
        length,
        p,
        l,
        count,
        pages,
        entries,
        out,
    )
}

#[unsafe(no_mangle)]
pub extern "C" fn sized_finish(
    words: u64,
    bump: u32,
    length: u32,
    p: u64,
    l: u64,
    count: u64,
    pages: &mut [u32],
    entries: &mut [u32],
    freed: &[u32],
    buffer: &mut [u8],
    numbers: &mut [u32],
    map: &mut [u8],
    out: &mut [u64; 8],
) -> u32
    ensures { Finishes (page_size_of words) bump length p l count pages entries freed buffer numbers map out result }
{
    calls::saves::finish(
        PageSize::of_words(words as usize),
        bump,
        length,
        p,
        l,
        count,
        pages,
        entries,
        freed,
        buffer,
        numbers,
        map,
        out,
    )
}

#[unsafe(no_mangle)]
pub extern "C" fn sized_total(words: u64, size: u64, out: &mut [u64; 8]) -> u32
    ensures { TellsTotal (page_size_of words) size out result }
{
    calls::totals::total(PageSize::of_words(words as usize), size, out)
}

#[unsafe(no_mangle)]
pub extern "C" fn sized_write_value_page(
    words: u64,
    value: &[u8],
    numbers: &[u32],
    index: u64,
    page: &mut [u8],
) -> u32
    ensures { WritesPage (page_size_of words) value numbers index page result }
{
    calls::values::write_value_page(
        PageSize::of_words(words as usize),
        TotalRule::New,
        value,
        numbers,
        index,
        page,
    )
}

// The writer by the old total, of which the Rust's pages are.
#[unsafe(no_mangle)]
pub extern "C" fn sized_write_old_value_page(
    words: u64,
    value: &[u8],
    numbers: &[u32],
    index: u64,
    page: &mut [u8],
) -> u32
    ensures { WritesOldPage (page_size_of words) value numbers index page result }
{
    calls::values::write_value_page(
        PageSize::of_words(words as usize),
        TotalRule::Old,
        value,
        numbers,
        index,
        page,
    )
}

#[unsafe(no_mangle)]
pub extern "C" fn sized_encode_cell(
    words: u64,
    size: u64,
    hash: &[u8; 32],
    numbers: &[u32],
    buffer: &mut [u8],
) -> u32
    ensures { EncodesCell (page_size_of words) size hash numbers buffer result }
{
    calls::values::encode_cell(
        PageSize::of_words(words as usize),
        size,
        hash,
        numbers,
        buffer,
    )
}

#[unsafe(no_mangle)]
pub extern "C" fn sized_decode_cell(
    words: u64,
    cell: &[u8],
    hash: &mut [u8; 32],
    out: &mut [u64; 8],
) -> u32
    ensures { DecodesCell (page_size_of words) cell hash out result }
{
    calls::values::decode_cell(PageSize::of_words(words as usize), cell, hash, out)
}

#[unsafe(no_mangle)]
pub extern "C" fn sized_read_value(
    words: u64,
    cell: &[u8],
    store: &[u8],
    numbers: &mut [u32],
    value: &mut [u8],
    out: &mut [u64; 8],
) -> u32
    ensures { ReadsValue (page_size_of words) cell store numbers value out result }
{
    calls::values::read_value(
        PageSize::of_words(words as usize),
        cell,
        store,
        numbers,
        value,
        out,
    )
}

#[unsafe(no_mangle)]
pub extern "C" fn sized_delete_value(
    words: u64,
    cell: &[u8],
    store: &[u8],
    numbers: &mut [u32],
    out: &mut [u64; 8],
) -> u32
    ensures { DeletesValue (page_size_of words) cell store numbers out result }
{
    calls::values::delete_value(
        PageSize::of_words(words as usize),
        cell,
        store,
        numbers,
        out,
    )
}
