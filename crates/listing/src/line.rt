// A line of the input, read part by part: where it ends, and what is accumulated of it.
ghost use Rattle.std.specs.Prelude.{◌≡◌, ◌<◌, ◌==◌, IfSome, length, position};
ghost use Rattle.listing.specs.Lines.{newline};
ghost use Rattle.listing.specs.Accumulated.{no_bytes, digits_with_byte, with_byte, with_bytes, accumulated_empty, accumulated_size};

// The place of the first newline, if there is one.
pub fn first_newline(bytes: &[u8]) -> Option<usize>
    ensures value { result ≡ position (λ byte. byte == newline) bytes.now }
    ensures within { IfSome result (λ place. place < length bytes.now) }
{
    bytes.iter().position(|byte| *byte == b'\n')
}

// Up to nine digits: how many, and the number that they write.
#[derive(Clone, Copy)]
struct Digits {
    count: usize,
    value: u64,
}

impl Digits {
    // With one byte more, or nothing where that is no size. Up to eight digits write less than 100,000,000: that test is there so that no sum wraps.
    #[tactic(auto, using(crate::proofs::DecimalLaws::ascii_digit), unfolding(crate::specs::Accumulated::digits_with_byte))]
    fn with_byte(self, byte: u8) -> Option<Digits>
        ensures { result ≡ digits_with_byte self byte }
    {
        if 9 <= self.count {
            return None;
        }
        if 100_000_000 <= self.value {
            return None;
        }
        if !byte.is_ascii_digit() {
            return None;
        }
        Some(Digits {
            count: self.count + 1,
            value: 10 * self.value + u64::from(byte - b'0'),
        })
    }
}

// What is accumulated of a line: its digits, or nothing where it is no size, whatever follows.
#[derive(Clone, Copy)]
pub struct Line {
    digits: Option<Digits>,
}

impl Line {
    // Before the first byte.
    pub fn new() -> Line
        ensures { result ≡ no_bytes }
    {
        Line {
            digits: Some(Digits { count: 0, value: 0 }),
        }
    }

    // Whether no byte was read.
    pub fn is_empty(self) -> bool
        ensures { result ≡ accumulated_empty self }
    {
        self.digits.is_some_and(|digits| digits.count == 0)
    }

    // The size that the line gives, if it is one.
    pub fn size(self) -> Option<u64>
        ensures { result ≡ accumulated_size self }
    {
        let digits = self.digits?;
        if digits.count == 0 {
            return None;
        }
        Some(digits.value)
    }

    // After one byte more.
    fn with_byte(self, byte: u8) -> Line
        ensures { result ≡ with_byte self byte }
    {
        Line {
            digits: self.digits.and_then(|digits| digits.with_byte(byte)),
        }
    }

    // After a part of the line.
    pub fn with_bytes(self, bytes: &[u8]) -> Line
        ensures { result ≡ with_bytes self bytes.now }
    {
        bytes.iter().fold(self, |line, byte| line.with_byte(*byte))
    }
}
