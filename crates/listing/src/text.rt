// The text of the listing, put into a lent buffer.
ghost use Rattle.std.specs.Prelude.{◌≡◌, ◌+◌, ◌-◌, ◌≤◌, take, length};
ghost use Rattle.std.proofs.lemmas.List.Edits.{sets};
ghost use Rattle.page.specs.PageSize.{standard_page_size};
ghost use Rattle.overflow.specs.Totals.{total_outcome};
ghost use Rattle.listing.specs.Decimal.{digits_of};
ghost use Rattle.listing.specs.Accumulated.{accumulated_size};
ghost use Rattle.listing.specs.Text.{header, number_text, outcome_text, size_text, max_text};
ghost use Rattle.listing.specs.Put.{Puts};

use crate::line::Line;
use overflow::total::{PageTotal, page_total};
use page::copy::copy;
use page::size::PageSize;
use refusal::Refusal;

// The text of a line that was read has at most so many bytes: `max_text` of specs/Text.
pub const MAX_TEXT: usize = 64;

// A lent buffer, and the place behind what was put into it. What goes beyond the buffer's end is left out.
//
// The `Cursor` of std is such a pair, but its clauses do not say that it keeps the lent buffer, so a caller would not know what is put there.
#[derive(Drop)]
pub struct Output<'a> {
    pub buffer: &'a mut [u8],
    pub next: usize,
}

impl<'a> Output<'a> {
    pub fn new(buffer: &'a mut [u8]) -> Output<'a>
        ensures same_buffer { result.buffer.ghost_name ≡ buffer.entry.ghost_name }
        ensures bytes { result.buffer.now ≡ buffer.old }
        ensures next { result.next ≡ 0 }
    {
        Output { buffer, next: 0 }
    }

    // What was put, from the buffer's start.
    pub fn written(&self) -> &[u8]
        ensures { result.now ≡ take self.now.next self.now.buffer.now }
    {
        let n = self.next.min(self.buffer.len());
        &self.buffer[..n]
    }

    // How many bytes more go in.
    pub fn room(&self) -> usize
        ensures { result ≡ length self.now.buffer.now - self.now.next }
    {
        self.buffer.len().saturating_sub(self.next)
    }

    // Begins again at the buffer's start.
    pub fn clear(&mut self)
        ensures same_buffer { self.new.buffer.ghost_name ≡ self.old.buffer.ghost_name }
        ensures bytes { self.new.buffer.now ≡ self.old.buffer.now }
        ensures next { self.new.next ≡ 0 }
    {
        self.next = 0;
    }

    #[tactic(auto, unfolding(crate::specs::Text::header))]
    pub fn put_header(&mut self)
        ensures { Puts self.old header self.new }
    {
        self.put(b"size pages cell spare\n");
    }

    // What is printed for a line. The `fmt` of a `Display` may fail, and this may not.
    pub fn put_line(&mut self, line: Line)
        ensures puts { Puts self.old (size_text standard_page_size (accumulated_size line)) self.new }
        ensures short { length (size_text standard_page_size (accumulated_size line)) ≤ max_text }
    {
        match line.size() {
            None => self.put(b"bad\n"),
            Some(size) => {
                self.put_digits(size);
                self.put_outcome(page_total(PageSize::standard(), size));
                self.put(b"\n");
            }
        }
    }

    // What is printed behind a size.
    fn put_outcome(&mut self, outcome: Result<PageTotal, Refusal>)
        ensures { Puts self.old (outcome_text (total_outcome outcome)) self.new }
    {
        match outcome {
            Ok(pages) => {
                self.put_number(pages.total as u64);
                self.put_number(pages.cell as u64);
                self.put_number(pages.spare as u64);
            }
            Err(refusal) => {
                self.put(b" refused");
                self.put_number(u64::from(u32::from(refusal)));
            }
        }
    }

    // A space and a number.
    fn put_number(&mut self, n: u64)
        ensures { Puts self.old (number_text n) self.new }
    {
        self.put(b" ");
        self.put_digits(n);
    }

    // A number in decimal.
    #[tactic(auto, using(crate::proofs::PutLaws::puts_text, crate::proofs::DecimalLaws::decimal_digits_of, crate::proofs::DecimalLaws::digits_short))]
    fn put_digits(&mut self, n: u64)
        ensures puts { Puts self.old (digits_of n) self.new }
        ensures short { length (digits_of n) ≤ 20 }
    {
        let mut digits = itoa::Buffer::new();
        self.put(digits.format(n).as_bytes());
    }

    // Bytes, as many as have room.
    #[tactic(auto, using(crate::proofs::PutLaws::puts_past))]
    fn put(&mut self, bytes: &[u8])
        ensures { Puts self.old bytes.now self.new }
    {
        let room = self.room();
        if room > 0 {
            let n = bytes.len().min(room);
            copy(&bytes[..n], self.buffer, self.next);
            self.next += n;
        }
    }
}
