// The pages of a store.
ghost use Rattle.std.specs.Prelude.{◌≡◌, ◌<◌};
ghost use Rattle.page.specs.Pages.{page_count, page_at, Stored};

use crate::size::PageSize;
use std::marker::Model;

// A store: its bytes, which are lent, in pages of one size. Page p starts at byte `page_size` times p.
#[derive(Drop)]
pub struct Store<'a> {
    page_size: PageSize,
    bytes: &'a [u8],
    // How many whole pages it has, and at most 2^32 - 1: a longer store counts as that.
    count: u32,
}

impl<'a> Model for Store<'a> {
    ghost Value = { Stored };

    ghost view = { λ s. record { page_size = s.page_size; bytes = s.bytes.now } };

    ghost invariant = { λ s. s.count ≡ page_count s.page_size s.bytes.now };
}

impl<'a> Store<'a> {
    pub fn new(page_size: PageSize, bytes: &'a [u8]) -> Store<'a>
        ensures { result ≡ record { page_size = page_size; bytes = bytes.entry.now } }
    {
        let count = u32::try_from(bytes.len() / page_size.bytes()).unwrap_or(u32::MAX);
        Store {
            page_size,
            bytes,
            count,
        }
    }

    pub fn page_size(&self) -> PageSize
        ensures { result ≡ self.now.page_size }
    {
        self.page_size
    }

    // How many whole pages it has, and at most 2^32 - 1: a longer store counts as that.
    pub fn page_count(&self) -> u32
        ensures { result ≡ page_count self.now.page_size self.now.bytes }
    {
        self.count
    }

    // The bytes of a page that the store has.
    pub fn page(&self, page: u32) -> &'a [u8]
        requires { page < page_count self.now.page_size self.now.bytes }
        ensures { result.now ≡ page_at self.now.page_size self.now.bytes page }
    {
        let size = self.page_size.bytes();
        let start = size * page as usize;
        &self.bytes[start..start + size]
    }
}
