// A line read byte by byte, in fixed memory.
ghost use Rattle.std.specs.Prelude.{◌≡◌, ◌+◌, ◌*◌, ◌<◌, ◌≤◌, ◌^◌, ℕ, List, [], ◌∷◌, ◌++◌, OkIff, OnOk, IfOk, IfErr, IsErrOf, length};
ghost use Rattle.std.specs.Char.{digit_value};
ghost use Rattle.record_line.specs.Text.{IsLine, numbers_of, parts_of};
ghost use Rattle.record_line.specs.Reading.{Fails, Reads, ReadsOn};

use crate::MOST;
use crate::fault::{Fault, WrongLine};
use arrayvec::ArrayVec;

// What is read of a line: the numbers that ended, and the last one as far as it is read, or why the line is not right.
#[derive(Drop)]
pub struct Reading {
    numbers: ArrayVec<u64, MOST>,
    last: Result<Option<u64>, Fault>,
}

impl Reading {
    // Before the first byte.
    pub fn new() -> Reading
        ensures { Reads result [] }
    {
        Reading {
            numbers: ArrayVec::new(),
            last: Ok(None),
        }
    }

    // Begins another line.
    pub fn clear(&mut self)
        ensures { Reads self.new [] }
    {
        self.numbers.clear();
        self.last = Ok(None);
    }

    // Reads a byte more.
    pub fn push(&mut self, byte: u8)
        ensures { (bytes : List ℕ) → Reads self.old bytes → Reads self.new (bytes ++ byte ∷ []) }
    {
        self.last = self.after(byte);
    }

    // What is read of the last number after a byte more. A space ends it.
    fn after(&mut self, byte: u8) -> Result<Option<u64>, Fault>
        ensures { (bytes : List ℕ) → Reads self.old bytes → ReadsOn self.new.numbers.items result (bytes ++ byte ∷ []) }
    {
        if byte == b' ' {
            self.end()?;
            return Ok(None);
        }
        let number = with_digit(self.last?.unwrap_or(0), byte)?;
        Ok(Some(number))
    }

    // Ends the last number, which joins the others.
    fn end(&mut self) -> Result<(), Fault>
        ensures ok { (bytes : List ℕ) → Reads self.old bytes → OnOk result (IsLine bytes × (self.new.numbers.items ≡ numbers_of bytes)) }
        ensures fault { (bytes : List ℕ) → Reads self.old bytes → IfErr result (λ fault. Fails fault bytes) }
    {
        let number = self.last?.ok_or(WrongLine)?;
        if self.numbers.is_full() {
            return Err(Fault::OutOfMemory);
        }
        self.numbers.push(number);
        Ok(())
    }

    // The numbers of the line, which ends here. Another begins with `clear`.
    pub fn numbers(&mut self) -> Result<&[u64], Fault>
        ensures ok { (bytes : List ℕ) → Reads self.old bytes → IfOk result (λ numbers. IsLine bytes × (numbers.now ≡ numbers_of bytes)) }
        ensures few { IfOk result (λ numbers. length numbers.now ≤ MOST) }
        ensures wrong { (bytes : List ℕ) → Reads self.old bytes → IsErrOf result Fault.Wrong → ¬ (IsLine bytes) }
        ensures most { (bytes : List ℕ) → Reads self.old bytes → IsErrOf result Fault.OutOfMemory → MOST < length (parts_of bytes) }
    {
        self.end()?;
        Ok(self.numbers.as_slice())
    }
}

// A number with a digit more.
fn with_digit(number: u64, byte: u8) -> Result<u64, WrongLine>
    ensures { OkIff result ((digit_value byte < 10) × (number * 10 + digit_value byte < 2 ^ 64)) (number * 10 + digit_value byte) }
{
    let digit = char::from(byte).to_digit(10).ok_or(WrongLine)?;
    let tens = number.checked_mul(10).ok_or(WrongLine)?;
    tens.checked_add(digit.into()).ok_or(WrongLine)
}
