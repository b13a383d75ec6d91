// How long a store is made for a page that it does not have.
ghost use Rattle.std.specs.Prelude.{◌≡◌};
ghost use Rattle.page.specs.Growth.{grow, grown_outcome};

use crate::number::PageNumber;
use refusal::Refusal;

// The largest bump: what `grow` makes of it is still a page number.
pub const MAX_BUMP: u32 = 4294950913;

// The store's new length in pages, or refusal 7: the least multiple of 8,192 that leaves room for 8,191 pages from `page` on.
#[tactic(auto, unfolding(crate::specs::Growth::grow, crate::specs::Growth::grown, crate::specs::Growth::rounded_up))]
pub fn grow(page: PageNumber) -> Result<PageNumber, Refusal>
    ensures { grown_outcome result ≡ grow page.0 }
{
    let g = page.0;
    if MAX_BUMP < g {
        return Err(Refusal::Limit);
    }
    Ok(PageNumber((g + 16382) / 8192 * 8192))
}
