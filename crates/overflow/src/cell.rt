// Cells: size (8 bytes), hash (32, carried and not computed), numbers of pages.
ghost use Rattle.std.specs.Prelude.{◌≡◌};
ghost use Rattle.refusal.specs.Effect.{effect};
ghost use Rattle.refusal.specs.Stored.{written_outcome};
ghost use Rattle.overflow.specs.Cells.{cell_with, encode_cell_into, decoded_outcome, cell_counts, decode_cell_into};

use crate::total::max_overflow_value_size;
use page::copy::copy_steps;
use page::little_endian::{LittleEndian, write_numbers};
use page::size::PageSize;
use refusal::Refusal;

// The bytes of a value, and how many numbers of pages its cell holds or were found.
#[derive(Clone, Copy)]
pub struct ValueCounts {
    pub size: usize,
    pub numbers: usize,
}

// Writes a cell to the start of the buffer, and answers how many bytes it has. After a refusal the buffer is as it was.
#[tactic(auto, using(crate::proofs::CellsLaws::cell_large, crate::proofs::CellsLaws::cell_short))]
pub fn encode_cell(
    page_size: PageSize,
    size: u64,
    hash: &[u8; 32],
    numbers: &[u32],
    cell: &mut [u8],
) -> Result<usize, Refusal>
    ensures { effect (written_outcome result) cell.new ≡ encode_cell_into page_size (cell_with size hash.now numbers.now) cell.old }
{
    if (max_overflow_value_size(page_size) as u64) < size {
        return Err(Refusal::Size);
    }
    let length = 40 + 4 * numbers.len();
    if cell.len() < length {
        return Err(Refusal::Room);
    }
    size.write_at(cell, 0);
    copy_steps(hash, cell, 8);
    write_numbers(numbers, cell, 40);
    Ok(length)
}

// Reads a cell: its hash goes to the array, and its size and the count of its numbers are the answer. A refusal leaves the array.
#[tactic(auto, using(crate::proofs::CellsLaws::decoding, crate::proofs::CellsLaws::into_refused, crate::proofs::CellsLaws::into_decoded))]
pub fn decode_cell(
    page_size: PageSize,
    cell: &[u8],
    hash: &mut [u8; 32],
) -> Result<ValueCounts, Refusal>
    ensures { effect (decoded_outcome result) hash.new ≡ decode_cell_into page_size cell.now hash.old }
{
    let counts = cell_counts(page_size, cell)?;
    copy_steps(&cell[8..40], hash, 0);
    Ok(counts)
}

// The size of a cell's value and how many numbers the cell holds, or refusal 12 or 10.
pub(crate) fn cell_counts(page_size: PageSize, cell: &[u8]) -> Result<ValueCounts, Refusal>
    ensures { decoded_outcome result ≡ cell_counts page_size cell.now }
{
    let length = cell.len();
    if length < 44 || length % 4 != 0 {
        return Err(Refusal::Cell);
    }
    let size = u64::read_at(cell, 0);
    if (max_overflow_value_size(page_size) as u64) < size {
        return Err(Refusal::Size);
    }
    Ok(ValueCounts {
        size: size as usize,
        numbers: (length - 40) / 4,
    })
}
