// Calls that were recorded with their answers: whether they give the same now.
//
// A line is one call: its kind, what goes in and, behind the `|` in the comments here, what has to come out. An array that goes in, as
// `store[]`, is its length and its elements. One that comes out is its elements alone; its length goes in.
#![tactic(auto)]

ghost use Rattle.std.specs.Prelude.{◌≡◌, true, OnOk};
ghost use Rattle.replayed.specs.Kind.{NamesKind};

use crate::kind::Kind;
use record_line::fault::Fault;
use record_line::fields::Fields;
use replayed_values::values;

mod kind;
mod lists;
mod lookups;
mod recordings;
#[cfg(test)]
mod tests;
mod totals;

// Whether the call that the first number names gives what stands behind. A line with an array of more than `MOST` elements is not right.
pub fn replay(line: &[u64]) -> bool
    ensures { result ≡ true → NamesKind line.now }
{
    replay_line(line).is_ok()
}

// `Wrong` says that the call gives other numbers than the line, or that there is no such call.
fn replay_line(line: &[u64]) -> Result<(), Fault>
    ensures { OnOk result (NamesKind line.now) }
{
    let mut fields = Fields::without_memory(line);
    let kind = Kind::try_from(fields.number::<u64>()?)?;
    replay_kind(kind, &mut fields)?;
    Ok(fields.expect_end()?)
}

fn replay_kind(kind: Kind, fields: &mut Fields<'_>) -> Result<(), Fault> {
    match kind {
        Kind::Grow => Ok(totals::grow(fields)?),
        Kind::Total => Ok(totals::total(fields)?),
        Kind::ReadList => lists::read_list(fields),
        Kind::HandOut => lists::hand_out(fields),
        Kind::Finish => lists::finish(fields),
        Kind::WritePage => values::write_page(fields),
        Kind::WriteOldPage => values::write_old_page(fields),
        Kind::EncodeCell => values::encode_cell(fields),
        Kind::DecodeCell => values::decode_cell(fields),
        Kind::ReadValue => values::read_value(fields),
        Kind::DeleteValue => values::delete_value(fields),
        Kind::Lookup => lookups::lookup(fields),
        Kind::Columns => recordings::columns(fields),
        Kind::Rows => recordings::rows(fields),
    }
}
