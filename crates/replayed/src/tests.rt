// Recorded lines that are right, so that memory suffices for each.
use crate::replay;
use record_line::text::numbers;
use std::test::Fail;

// A store that has to hold page 2 grows to 16,384 pages.
#[test]
fn grows(rt: HostRuntime) {
    let line = [1, 2, 0, 16384, 9, 9, 9, 9, 9, 9, 9];
    assert!(rt; replay(&line));
}

// A list of one page, with one entry, in a store of three pages.
#[test]
fn reads_a_list(rt: HostRuntime) -> Result<(), Fail> {
    let line = numbers(
        rt.alloc(),
        "3 16 1 48 0 0 0 0 0 0 0 0 0 0 0 0 0 0 0 0 0 0 0 0 1 0 2 0 0 0 0 0 0 0 0 0 0 0 0 0 0 0 0 0 0 0 0 0 0 0 0 0 1 1 1 0 1 1 9 9 9 9 9 9 1 2 0",
    )?;
    assert!(rt; replay(&line));
    Ok(())
}

// No entry is left, so the page comes from the bump.
#[test]
fn hands_out(rt: HostRuntime) -> Result<(), Fail> {
    let line = numbers(
        rt.alloc(),
        "4 1024 26 8192 0 0 77 0 0 0 103 78 8192 9 9 9 9 9",
    )?;
    assert!(rt; replay(&line));
    Ok(())
}

// A save that took and freed nothing.
#[test]
fn finishes(rt: HostRuntime) -> Result<(), Fail> {
    let line = numbers(
        rt.alloc(),
        "5 1024 18 16384 0 0 0 0 0 0 0 0 3 0 0 18 16384 0 0 0 9 9 0 0 0",
    )?;
    assert!(rt; replay(&line));
    Ok(())
}

// Page 0 of a store of one page.
#[test]
fn looks_up(rt: HostRuntime) -> Result<(), Fail> {
    let line = numbers(
        rt.alloc(),
        "11 16 0 0 0 16 7 146 119 186 220 134 225 93 75 100 133 201 202 17 90 20 0 1 0 9 9 9 9 9 9",
    )?;
    assert!(rt; replay(&line));
    Ok(())
}

// Three rows: bean, exhaust, airflow and drum of three moments.
#[test]
fn makes_columns(rt: HostRuntime) -> Result<(), Fail> {
    let line = numbers(
        rt.alloc(),
        "13 24 208 7 220 5 44 1 60 0 218 7 210 5 44 1 61 0 213 7 215 5 54 1 60 0 25 0 208 7 10 0 251 255 220 5 246 255 5 0 44 1 0 0 10 0 60 0 1 0 \
         255 255 9",
    )?;
    assert!(rt; replay(&line));
    Ok(())
}

// A length of nine bytes is no rows.
#[test]
fn makes_no_rows(rt: HostRuntime) -> Result<(), Fail> {
    let line = numbers(rt.alloc(), "14 9 1 2 3 4 5 6 7 8 9 2 26 9 9")?;
    assert!(rt; replay(&line));
    Ok(())
}
