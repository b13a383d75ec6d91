// Memory that suffices: a line is read, at once and byte by byte, and arrays are taken off its front, into memory and into places lent for them.
use crate::MOST;
use crate::fields::Fields;
use crate::reading::Reading;
use crate::text::numbers;
use arrayvec::ArrayVec;
use std::test::Fail;

#[test]
fn reads_a_line(rt: HostRuntime) -> Result<(), Fail> {
    let alloc = rt.alloc();
    let line = numbers(alloc, "2 300 7 1 0")?;
    let mut fields = Fields::new(alloc, &line);
    let array = fields.array::<u32>()?;
    assert_eq!(rt; array.as_slice(), [300, 7].as_slice());
    let blank = fields.blank::<u8>()?;
    assert_eq!(rt; blank.as_slice(), [9].as_slice());
    Ok(())
}

// More elements than a place of the caller's has.
#[test]
fn reads_an_array_of_any_length(rt: HostRuntime) -> Result<(), Fail> {
    let alloc = rt.alloc();
    let line = vec![in alloc; MOST as u64 + 1; MOST + 2]?;
    let mut fields = Fields::new(alloc, &line);
    let array = fields.array::<u32>()?;
    assert_eq!(rt; array.len(), MOST + 1);
    Ok(fields.expect_end()?)
}

#[test]
fn reads_a_line_without_memory(rt: HostRuntime) -> Result<(), Fail> {
    let line = [2, 300, 7, 1, 0];
    let mut fields = Fields::without_memory(&line);
    let mut array = ArrayVec::<u32, MOST>::new();
    fields.array_into(&mut array)?;
    assert_eq!(rt; array.as_slice(), [300, 7].as_slice());
    let mut blank = ArrayVec::<u8, MOST>::new();
    fields.blank_into(&mut blank)?;
    assert_eq!(rt; blank.as_slice(), [9].as_slice());
    Ok(())
}

#[test]
fn reads_a_line_byte_by_byte(rt: HostRuntime) -> Result<(), Fail> {
    let mut reading = Reading::new();
    for &byte in b"7 x" {
        reading.push(byte);
    }
    reading.clear();
    for &byte in b"000000000000000000000018446744073709551615 0 007" {
        reading.push(byte);
    }
    assert_eq!(rt; reading.numbers()?, [u64::MAX, 0, 7].as_slice());
    Ok(())
}
