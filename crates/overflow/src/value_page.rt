// A value page: two bytes count of numbers, two bytes count of value bytes, numbers, bytes.
ghost use Rattle.std.specs.Prelude.{◌≡◌, ◌+◌, ◌*◌, ◌≤◌, length};
ghost use Rattle.overflow.specs.ValuePages.{encode_value_page};

use page::copy::copy_steps;
use page::fill::clear_steps;
use page::little_endian::{LittleEndian, write_numbers};

// Makes a whole page of some numbers and some value bytes that fit it.
pub(crate) fn encode_value_page(numbers: &[u32], value: &[u8], page: &mut [u8])
    requires fits { 4 + 4 * length numbers.now + length value.now ≤ length page.old }
    requires limit { length page.old ≤ 65536 }
    ensures { page.new ≡ encode_value_page (length page.old) numbers.now value.now }
{
    let end = page.len();
    let bytes_from = 4 + 4 * numbers.len();
    (numbers.len() as u16).write_at(page, 0);
    (value.len() as u16).write_at(page, 2);
    write_numbers(numbers, page, 4);
    copy_steps(value, page, bytes_from);
    clear_steps(page, bytes_from + value.len(), end);
}
