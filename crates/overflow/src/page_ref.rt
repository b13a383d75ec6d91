// A value page that is held: a struct with the lent bytes, whose methods read what stands on them.
//
// Nothing is asked of the bytes. A page shorter than its header has no numbers and no value bytes, a number that the page ends before
// is nil, and the value bytes are those that the page has.
ghost use Rattle.std.specs.Prelude.{◌≡◌, ◌≤◌, cond, leb, length};
ghost use Rattle.page.specs.Bytes.{number_at};
ghost use Rattle.overflow.specs.ValuePages.{numbers_within, bytes_within, number_within, value_bytes};

use page::little_endian::{LittleEndian, nth_number};
use page::number::PageNumber;

#[derive(Clone, Copy)]
pub struct ValuePageRef<'a>(pub &'a [u8]);

impl<'a> ValuePageRef<'a> {
    pub fn new(page: &'a [u8]) -> ValuePageRef<'a>
        ensures { result.0 ≡ page.entry }
    {
        ValuePageRef(page)
    }

    // The count of numbers.
    #[tactic(auto, unfolding(crate::specs::ValuePages::numbers_within, crate::specs::ValuePages::number_count))]
    pub fn number_count(self) -> u16
        ensures { result ≡ numbers_within self.entry.0.now }
    {
        self.count_at(0)
    }

    // The count of value bytes.
    #[tactic(auto, unfolding(crate::specs::ValuePages::bytes_within, crate::specs::ValuePages::byte_count))]
    pub fn byte_count(self) -> u16
        ensures { result ≡ bytes_within self.entry.0.now }
    {
        self.count_at(2)
    }

    // The count at a place of the header, and 0 where the page ends within the header.
    fn count_at(self, at: usize) -> u16
        requires { at ≤ 2 }
        ensures { result ≡ cond (leb 4 (length self.entry.0.now)) (number_at 2 self.entry.0.now at) 0 }
    {
        if self.0.len() < 4 {
            return 0;
        }
        u16::read_at(self.0, at)
    }

    // Number i.
    #[tactic(auto, unfolding(crate::specs::ValuePages::number_within, page::specs::Bytes::nth_within))]
    pub fn number(self, i: usize) -> PageNumber
        ensures { result.0 ≡ number_within self.entry.0.now i }
    {
        PageNumber(nth_number(self.0, 4, i))
    }

    // The value bytes.
    #[tactic(auto, using(crate::proofs::WithinLaws::bytes_part))]
    pub fn bytes(self) -> &'a [u8]
        ensures { result.now ≡ value_bytes self.entry.0.now }
    {
        let length = self.0.len();
        let start = (4 + 4 * usize::from(self.number_count())).min(length);
        let end = (start + usize::from(self.byte_count())).min(length);
        &self.0[start..end]
    }
}
