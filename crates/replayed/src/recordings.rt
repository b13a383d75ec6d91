// Columns before storage, and back.
ghost use Rattle.std.specs.Prelude.{OnOk};
ghost use Rattle.replayed_values.specs.Taken.{TakesAtLeast};

use arrayvec::ArrayVec;
use record_line::fault::Fault;
use record_line::fields::Fields;

// rows[], the length of the columns | status columns
pub fn columns(fields: &mut Fields<'_>) -> Result<(), Fault>
    ensures { OnOk result (TakesAtLeast 3 fields.old fields.new) }
{
    let mut rows = ArrayVec::new();
    fields.array_into(&mut rows)?;
    let mut columns = ArrayVec::new();
    fields.blank_into(&mut columns)?;
    let status = calls::recordings::columns(&rows, &mut columns);
    Ok(fields.expect_reply(status, &columns)?)
}

// columns[], the length of the rows | status rows
pub fn rows(fields: &mut Fields<'_>) -> Result<(), Fault>
    ensures { OnOk result (TakesAtLeast 3 fields.old fields.new) }
{
    let mut columns = ArrayVec::new();
    fields.array_into(&mut columns)?;
    let mut rows = ArrayVec::new();
    fields.blank_into(&mut rows)?;
    let status = calls::recordings::rows(&columns, &mut rows);
    Ok(fields.expect_reply(status, &rows)?)
}
