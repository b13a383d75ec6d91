// Little-endian numbers in byte slices.
//
// These are leaves for sibling crates: each but `nth_number` asks that its bytes lie within the slice. They take a place beside the slice, as a
// slice cut at the place would be tested once more.
ghost use Rattle.std.specs.Prelude.{◌≡◌, ℕ, ◌+◌, ◌*◌, ◌≤◌, length, map};
ghost use Rattle.std.proofs.lemmas.List.Edits.{sets};
ghost use Rattle.page.specs.Bytes.{number_at, bytes_of, numbers_at, bytes_of_all, nth_within};

use crate::copy::copy;

// A number that takes `WIDTH` bytes, the lowest first.
pub trait LittleEndian: Copy {
    ghost WIDTH: { ℕ };

    const WIDTH: usize;

    ghost value: { Self → ℕ };

    // The number in the bytes from place `at` on.
    fn read_at(b: &[u8], at: usize) -> Self
        requires { at + WIDTH ≤ length b.now }
        ensures { value result ≡ number_at WIDTH b.now at };

    // Puts the number's bytes at place `at`.
    fn write_at(self, b: &mut [u8], at: usize)
        requires { at + WIDTH ≤ length b.old }
        ensures { b.new ≡ sets b.old at (bytes_of WIDTH (value self)) };
}

impl LittleEndian for u16 {
    ghost WIDTH = { 2 };

    const WIDTH: usize = 2;

    ghost value = { λ n. n };

    #[tactic(auto, unfolding(crate::specs::Bytes::number_at))]
    fn read_at(b: &[u8], at: usize) -> u16 {
        u16::from_le_bytes([b[at], b[at + 1]])
    }

    fn write_at(self, b: &mut [u8], at: usize) {
        copy(&u16::to_le_bytes(self), b, at);
    }
}

impl LittleEndian for u32 {
    ghost WIDTH = { 4 };

    const WIDTH: usize = 4;

    ghost value = { λ n. n };

    #[tactic(auto, unfolding(crate::specs::Bytes::number_at))]
    fn read_at(b: &[u8], at: usize) -> u32 {
        u32::from_le_bytes([b[at], b[at + 1], b[at + 2], b[at + 3]])
    }

    fn write_at(self, b: &mut [u8], at: usize) {
        copy(&u32::to_le_bytes(self), b, at);
    }
}

impl LittleEndian for u64 {
    ghost WIDTH = { 8 };

    const WIDTH: usize = 8;

    ghost value = { λ n. n };

    #[tactic(auto, unfolding(crate::specs::Bytes::number_at))]
    fn read_at(b: &[u8], at: usize) -> u64 {
        u64::from_le_bytes([
            b[at],
            b[at + 1],
            b[at + 2],
            b[at + 3],
            b[at + 4],
            b[at + 5],
            b[at + 6],
            b[at + 7],
        ])
    }

    fn write_at(self, b: &mut [u8], at: usize) {
        copy(&u64::to_le_bytes(self), b, at);
    }
}

// Number i of those of 32 bits that stand from place `from` on, and 0 where the bytes end before it does.
#[tactic(auto, unfolding(crate::specs::Bytes::nth_within))]
pub fn nth_number(b: &[u8], from: usize, i: usize) -> u32
    ensures { result ≡ nth_within from b.now i }
{
    if b.len() < from || (b.len() - from) / 4 <= i {
        return 0;
    }
    u32::read_at(b, from + 4 * i)
}

// Fills the table with the numbers in the bytes from place `at` on.
pub fn read_numbers<T: LittleEndian>(b: &[u8], at: usize, table: &mut [T])
    requires { at + T.WIDTH * length table.old ≤ length b.now }
    ensures { map T.value table.new ≡ numbers_at T.WIDTH b.now at (length table.old) }
{
    for (i, number) in table.iter_mut().enumerate() {
        *number = T::read_at(b, at + T::WIDTH * i);
    }
}

// Writes the numbers of the table to the bytes from place `at` on, and answers their count. Each raises it when it is written, as it is the count of
// steps that `copy_steps` tells.
pub fn write_numbers<T: LittleEndian>(table: &[T], b: &mut [u8], at: usize) -> usize
    requires { at + T.WIDTH * length table.now ≤ length b.old }
    ensures count { result ≡ length table.now }
    ensures bytes { b.new ≡ sets b.old at (bytes_of_all T.WIDTH (map T.value table.now)) }
{
    let mut written = 0;
    for &number in table {
        number.write_at(b, at + T::WIDTH * written);
        written += 1;
    }
    written
}
