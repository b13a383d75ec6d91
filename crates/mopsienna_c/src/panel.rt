// The same functions at the small panel's page size: all but `grow`, whose answer is the same at every page size.
ghost use Rattle.page.specs.PageSize.{panel_page_size};
ghost use Rattle.calls.specs.Lists.{ReadsList};
ghost use Rattle.calls.specs.Lookups.{LooksUp};
ghost use Rattle.calls.specs.Saves.{HandsOut, Finishes};
ghost use Rattle.calls.specs.Totals.{TellsTotal};
ghost use Rattle.calls.specs.Values.{WritesPage, EncodesCell, DecodesCell, ReadsValue, DeletesValue};

use overflow::total::TotalRule;
use page::size::PageSize;

#[unsafe(no_mangle)]
pub extern "C" fn mopsienna_panel_read_list(
    store: &[u8],
    head: u32,
    pages: &mut [u32],
    entries: &mut [u32],
    map: &mut [u8],
    out: &mut [u64; 8],
) -> u32
    ensures { ReadsList panel_page_size store head pages entries map out result }
{
    calls::lists::read_list(PageSize::panel(), store, head, pages, entries, map, out)
}

#[unsafe(no_mangle)]
pub extern "C" fn mopsienna_panel_hand_out(
    bump: u32,
    length: u32,
    p: u64,
    l: u64,
    count: u64,
    pages: &[u32],
    entries: &[u32],
    out: &mut [u64; 8],
) -> u32
    ensures { HandsOut panel_page_size bump length p l count pages entries out result }
{
    calls::saves::hand_out(
        PageSize::panel(),
        bump,
        length,
        p,
        l,
        count,
        pages,
        entries,
        out,
    )
}

#[unsafe(no_mangle)]
pub extern "C" fn mopsienna_panel_finish(
    bump: u32,
    length: u32,
    p: u64,
    l: u64,
    count: u64,
    pages: &mut [u32],
    entries: &mut [u32],
    freed: &[u32],
    buffer: &mut [u8],
    numbers: &mut [u32],
    map: &mut [u8],
    out: &mut [u64; 8],
) -> u32
    ensures { Finishes panel_page_size bump length p l count pages entries freed buffer numbers map out result }
{
    calls::saves::finish(
        PageSize::panel(),
        bump,
        length,
        p,
        l,
        count,
        pages,
        entries,
        freed,
        buffer,
        numbers,
        map,
        out,
    )
}

#[unsafe(no_mangle)]
pub extern "C" fn mopsienna_panel_total(size: u64, out: &mut [u64; 8]) -> u32
    ensures { TellsTotal panel_page_size size out result }
{
    calls::totals::total(PageSize::panel(), size, out)
}

#[unsafe(no_mangle)]
pub extern "C" fn mopsienna_panel_write_value_page(
    value: &[u8],
    numbers: &[u32],
    index: u64,
    page: &mut [u8],
) -> u32
    ensures { WritesPage panel_page_size value numbers index page result }
{
    calls::values::write_value_page(
        PageSize::panel(),
        TotalRule::New,
        value,
        numbers,
        index,
        page,
    )
}

#[unsafe(no_mangle)]
pub extern "C" fn mopsienna_panel_encode_cell(
    size: u64,
    hash: &[u8; 32],
    numbers: &[u32],
    buffer: &mut [u8],
) -> u32
    ensures { EncodesCell panel_page_size size hash numbers buffer result }
{
    calls::values::encode_cell(PageSize::panel(), size, hash, numbers, buffer)
}

#[unsafe(no_mangle)]
pub extern "C" fn mopsienna_panel_decode_cell(
    cell: &[u8],
    hash: &mut [u8; 32],
    out: &mut [u64; 8],
) -> u32
    ensures { DecodesCell panel_page_size cell hash out result }
{
    calls::values::decode_cell(PageSize::panel(), cell, hash, out)
}

#[unsafe(no_mangle)]
pub extern "C" fn mopsienna_panel_read_value(
    cell: &[u8],
    store: &[u8],
    numbers: &mut [u32],
    value: &mut [u8],
    out: &mut [u64; 8],
) -> u32
    ensures { ReadsValue panel_page_size cell store numbers value out result }
{
    calls::values::read_value(PageSize::panel(), cell, store, numbers, value, out)
}

#[unsafe(no_mangle)]
pub extern "C" fn mopsienna_panel_delete_value(
    cell: &[u8],
    store: &[u8],
    numbers: &mut [u32],
    out: &mut [u64; 8],
) -> u32
    ensures { DeletesValue panel_page_size cell store numbers out result }
{
    calls::values::delete_value(PageSize::panel(), cell, store, numbers, out)
}

#[unsafe(no_mangle)]
pub extern "C" fn mopsienna_panel_lookup(
    numbers: &[u32],
    pending: &[u8],
    store: &[u8],
    page: u32,
    out: &mut [u64; 8],
) -> u32
    ensures { LooksUp panel_page_size numbers pending store page out result }
{
    calls::lookups::lookup(PageSize::panel(), numbers, pending, store, page, out)
}
