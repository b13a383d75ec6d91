// Columns before storage, and back: the same at every page size, so the panel has no functions of its own.
ghost use Rattle.columns.specs.Columns.{columns_of, rows_of};
ghost use Rattle.calls.specs.Recordings.{Rearranges};

// Columns for the rows, at the start of the second buffer.
#[unsafe(no_mangle)]
pub extern "C" fn mopsienna_columns(rows: &[u8], columns: &mut [u8]) -> u32
    ensures { Rearranges columns_of rows columns result }
{
    calls::recordings::columns(rows, columns)
}

// Rows for the columns, at the start of the second buffer.
#[unsafe(no_mangle)]
pub extern "C" fn mopsienna_rows(columns: &[u8], rows: &mut [u8]) -> u32
    ensures { Rearranges rows_of columns rows result }
{
    calls::recordings::rows(columns, rows)
}
