// How many entries a list page holds.
ghost use Rattle.std.specs.Prelude.{◌≡◌, ◌≤◌};
ghost use Rattle.page.specs.PageSize.{capacity};

use page::size::PageSize;

// How many entries a list page of this size holds at most: two or more.
#[tactic(auto, using(page::proofs::PageSizeLaws::page_least))]
pub fn max_pns_per_page(page_size: PageSize) -> usize
    ensures entries { result ≡ capacity page_size }
    ensures two { 2 ≤ result }
{
    entry_places(page_size.bytes())
}

// How many entries so many bytes have places for, behind the header.
#[tactic(auto, unfolding(page::specs::PageSize::capacity))]
pub(crate) fn entry_places(bytes: usize) -> usize
    requires { 6 ≤ bytes }
    ensures { result ≡ capacity bytes }
{
    (bytes - 6) / 4
}
