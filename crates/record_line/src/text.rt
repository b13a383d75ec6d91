// The numbers of a line of text.
ghost use Rattle.std.specs.Prelude.{◌≡◌, IfOk, IsErrOf};
ghost use Rattle.std.specs.Result.{OkIff};
ghost use Rattle.std.specs.Str.Parse.{digits_value};
ghost use Rattle.record_line.specs.Text.{IsNumber, IsLine, numbers_of};

use crate::fault::{Fault, WrongLine};
use std::alloc::Global;

// The numbers, in decimal with one space between two.
pub fn numbers(alloc: Global, line: &str) -> Result<Vec<u64>, Fault>
    ensures ok { IfOk result (λ v. IsLine line.now × (v.items ≡ numbers_of line.now)) }
    ensures wrong { IsErrOf result Fault.Wrong → ¬ (IsLine line.now) }
{
    let mut numbers = Vec::new(alloc);
    for field in line.split(' ') {
        numbers.push(number(field)?)?;
    }
    Ok(numbers)
}

// The number that digits write. A sign is refused.
fn number(field: &str) -> Result<u64, WrongLine>
    ensures { OkIff result (IsNumber field.now) (digits_value 10 field.now) }
{
    if field.starts_with('+') {
        return Err(WrongLine);
    }
    field.parse().map_err(|_| WrongLine)
}
