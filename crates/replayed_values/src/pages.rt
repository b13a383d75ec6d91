// Page sizes; and whether a table has what the reader of a page tells.
ghost use Rattle.std.specs.Prelude.{◌≡◌, ◌≢◌, ◌-◌, ◌/◌, ℕ, true, false, ◌∷◌, IfOk, OnErr, EachIndex, SomeIndex, slice_index};
ghost use Rattle.page.specs.PageSize.{page_size_of};
ghost use Rattle.replayed_values.specs.Taken.{HasNoNumber};

use lookup::find::Pending;
use page::size::PageSize;
use record_line::fault::WrongLine;
use record_line::fields::Fields;

// No pending page.
pub const NONE_PENDING: Pending = Pending {
    numbers: &[],
    pages: &[],
};

// The page size that comes next, in bytes. The least page has 16, and each larger one some words of four bytes more.
pub fn page_size(fields: &mut Fields<'_>) -> Result<PageSize, WrongLine>
    ensures ok { IfOk result (λ s. (n : ℕ) × (fields.old ≡ n ∷ fields.new) × (s ≡ page_size_of ((n - 16) / 4))) }
    ensures wrong { OnErr result (HasNoNumber fields.old) }
{
    let bytes = fields.number::<u64>()?;
    let words = bytes.saturating_sub(16) / 4;
    Ok(PageSize::of_words(words as usize))
}

// Whether the numbers of the part are those that the closure tells, place by place.
pub fn agrees<F: Fn(usize) -> u32>(part: &[u32], number: F) -> bool
    requires { F.IsAlwaysCallable number }
    ensures all { result ≡ true → EachIndex part.now (λ i. F.post number i (slice_index part.now i)) }
    ensures some { result ≡ false → SomeIndex part.now (λ i. (n : ℕ) × F.post number i n × (n ≢ slice_index part.now i)) }
{
    part.iter().enumerate().all(|(i, n)| *n == number(i))
}
