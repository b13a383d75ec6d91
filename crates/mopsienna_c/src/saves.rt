// The open save: handing out numbers, and finishing.
ghost use Rattle.page.specs.PageSize.{standard_page_size};
ghost use Rattle.calls.specs.Saves.{HandsOut, Finishes};

use page::size::PageSize;

// out: the number, the count of numbers handed out, the recorded length.
#[unsafe(no_mangle)]
pub extern "C" fn mopsienna_hand_out(
    bump: u32,
    length: u32,
    p: u64,
    l: u64,
    count: u64,
    pages: &[u32],
    entries: &[u32],
    out: &mut [u64; 8],
) -> u32
    ensures { HandsOut standard_page_size bump length p l count pages entries out result }
{
    calls::saves::hand_out(
        PageSize::standard(),
        bump,
        length,
        p,
        l,
        count,
        pages,
        entries,
        out,
    )
}

// out: head, bump, recorded length, P, L, pages written. Refusal 8: the place of the freed number.
#[unsafe(no_mangle)]
pub extern "C" fn mopsienna_finish(
    bump: u32,
    length: u32,
    p: u64,
    l: u64,
    count: u64,
    pages: &mut [u32],
    entries: &mut [u32],
    freed: &[u32],
    buffer: &mut [u8],
    numbers: &mut [u32],
    map: &mut [u8],
    out: &mut [u64; 8],
) -> u32
    ensures { Finishes standard_page_size bump length p l count pages entries freed buffer numbers map out result }
{
    calls::saves::finish(
        PageSize::standard(),
        bump,
        length,
        p,
        l,
        count,
        pages,
        entries,
        freed,
        buffer,
        numbers,
        map,
        out,
    )
}
