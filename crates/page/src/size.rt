// How large a page is.
ghost use Rattle.std.specs.Prelude.{◌≡◌, ℕ};
ghost use Rattle.page.specs.PageSize.{IsPageSize, page_size_of, standard_page_size, panel_page_size};

use std::marker::Model;

// The size of a page. In contracts it is the number of its bytes, which is a page size: it is made by `of_words` alone.
#[derive(Clone, Copy)]
pub struct PageSize {
    bytes: usize,
}

impl Model for PageSize {
    ghost Value = { ℕ };

    ghost view = { λ s. s.bytes };

    ghost invariant = { λ s. IsPageSize s.bytes };

    ghost inverse = { λ n. record { bytes = n } };
}

impl PageSize {
    // Document 01's: 4,096 bytes.
    #[tactic(auto, unfolding(crate::specs::PageSize::capacity))]
    pub fn standard() -> PageSize
        ensures { result ≡ standard_page_size }
    {
        PageSize { bytes: 4096 }
    }

    // The small panel's: 1,024 bytes.
    #[tactic(auto, unfolding(crate::specs::PageSize::capacity))]
    pub fn panel() -> PageSize
        ensures { result ≡ panel_page_size }
    {
        PageSize { bytes: 1024 }
    }

    // A page of 16 bytes and so many words of four bytes more, and of 65,536 bytes from 16,380 words on.
    #[tactic(auto, unfolding(crate::specs::PageSize::page_size_of, crate::specs::PageSize::capacity))]
    pub fn of_words(words: usize) -> PageSize
        ensures { result ≡ page_size_of words }
    {
        PageSize {
            bytes: 16 + 4 * words.min(16380),
        }
    }

    pub fn bytes(self) -> usize
        ensures bytes { result ≡ self }
        ensures size { IsPageSize result }
    {
        self.bytes
    }
}
