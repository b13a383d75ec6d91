// How a store grows, and how many pages a value takes.
ghost use Rattle.std.specs.Prelude.{OnOk};
ghost use Rattle.replayed_values.specs.Taken.{TakesAtLeast};

use calls::totals;
use page::size::PageSize;
use record_line::fault::WrongLine;
use record_line::fields::{BLANK_OUT, Fields};

// page | status out
pub fn grow(fields: &mut Fields<'_>) -> Result<(), WrongLine>
    ensures { OnOk result (TakesAtLeast 10 fields.old fields.new) }
{
    let page = fields.number()?;
    let mut out = BLANK_OUT;
    let status = totals::grow(page, &mut out);
    fields.expect_reply(status, &out)
}

// size | status out
pub fn total(fields: &mut Fields<'_>) -> Result<(), WrongLine>
    ensures { OnOk result (TakesAtLeast 10 fields.old fields.new) }
{
    let size = fields.number()?;
    let mut out = BLANK_OUT;
    let status = totals::total(PageSize::standard(), size, &mut out);
    fields.expect_reply(status, &out)
}
