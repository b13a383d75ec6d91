// Recorded lines, behind the number of their kind: memory suffices, and each call gives what its line has.
use crate::values;
use record_line::fields::Fields;
use record_line::text::numbers;
use std::test::Fail;

// The one byte of a value on a page of 16 bytes.
#[test]
fn writes_a_page(rt: HostRuntime) -> Result<(), Fail> {
    let text = "16 0 1 236 1 0 16 0 0 0 1 0 236 0 0 0 0 0 0 0 0 0 0 0";
    let line = numbers(rt.alloc(), text)?;
    let mut fields = Fields::without_memory(&line);
    values::write_page(&mut fields)?;
    Ok(fields.expect_end()?)
}

// The same page by the old total.
#[test]
fn writes_an_old_page(rt: HostRuntime) -> Result<(), Fail> {
    let text = "16 0 1 236 1 0 16 0 0 0 1 0 236 0 0 0 0 0 0 0 0 0 0 0";
    let line = numbers(rt.alloc(), text)?;
    let mut fields = Fields::without_memory(&line);
    values::write_old_page(&mut fields)?;
    Ok(fields.expect_end()?)
}

// A cell with no number.
#[test]
fn writes_a_cell(rt: HostRuntime) -> Result<(), Fail> {
    let text =
        "10613163 32 37 45 173 131 35 30 197 221 207 104 22 13 238 0 126 245 42 239 172 101 137 31 12 106 223 236 42 23 122 4 138 \
         203 0 40 0 171 241 161 0 0 0 0 0 37 45 173 131 35 30 197 221 207 104 22 13 238 0 126 245 42 239 172 101 137 31 12 106 \
         223 236 42 23 122 4 138 203";
    let line = numbers(rt.alloc(), text)?;
    let mut fields = Fields::without_memory(&line);
    values::encode_cell(&mut fields)?;
    Ok(fields.expect_end()?)
}

// A cell with one number.
#[test]
fn reads_a_cell(rt: HostRuntime) -> Result<(), Fail> {
    let text =
        "44 1 0 0 0 0 0 0 0 144 69 9 21 247 246 229 189 221 3 243 197 130 225 178 180 129 182 28 26 133 230 121 237 190 161 25 \
         133 80 186 13 219 0 0 0 0 0 1 1 9 9 9 9 9 9 144 69 9 21 247 246 229 189 221 3 243 197 130 225 178 180 129 182 28 26 133 \
         230 121 237 190 161 25 133 80 186 13 219";
    let line = numbers(rt.alloc(), text)?;
    let mut fields = Fields::without_memory(&line);
    values::decode_cell(&mut fields)?;
    Ok(fields.expect_end()?)
}

// Seven bytes on the first page of a store, behind which one more byte stands.
#[test]
fn reads_a_value(rt: HostRuntime) -> Result<(), Fail> {
    let text =
        "16 44 7 0 0 0 0 0 0 0 171 203 21 184 139 116 106 165 46 7 187 95 121 194 36 7 247 225 127 219 17 154 222 144 164 19 242 \
         105 115 142 133 216 0 0 0 0 17 0 0 7 0 68 30 168 0 0 192 200 0 0 0 0 0 21 1 7 0 7 1 9 9 9 9 9 9 0 68 30 168 0 0 192 200";
    let line = numbers(rt.alloc(), text)?;
    let mut fields = Fields::without_memory(&line);
    values::read_value(&mut fields)?;
    Ok(fields.expect_end()?)
}

// The one page of twelve bytes.
#[test]
fn deletes_a_value(rt: HostRuntime) -> Result<(), Fail> {
    let text =
        "16 44 12 0 0 0 0 0 0 0 81 132 213 254 85 18 129 24 87 34 92 165 14 169 254 95 83 248 68 42 230 2 241 156 179 125 194 236 \
         130 228 246 144 0 0 0 0 16 0 0 12 0 2 0 0 0 0 0 0 0 2 0 0 0 3 0 1 9 9 9 9 9 9 9 0 9 9";
    let line = numbers(rt.alloc(), text)?;
    let mut fields = Fields::without_memory(&line);
    values::delete_value(&mut fields)?;
    Ok(fields.expect_end()?)
}
