// Columns before storage, and back. Neither depends on the page size.
ghost use Rattle.columns.specs.Columns.{columns_of, rows_of};
ghost use Rattle.calls.specs.Recordings.{Rearranges};

use crate::told::status;

// Columns for the rows, at the start of the second buffer.
pub fn columns(rows: &[u8], columns: &mut [u8]) -> u32
    ensures { Rearranges columns_of rows columns result }
{
    status(columns::rearrange::columns(rows, columns))
}

// Rows for the columns, at the start of the second buffer.
pub fn rows(columns: &[u8], rows: &mut [u8]) -> u32
    ensures { Rearranges rows_of columns rows result }
{
    status(columns::rearrange::rows(columns, rows))
}
