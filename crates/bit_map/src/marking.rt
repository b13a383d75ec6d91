// Numbers marked one after another, to see whether all are below a limit and none comes twice.
ghost use Rattle.std.specs.Prelude.{◌≡◌, ◌&&◌, [], ◌∷◌, ◌++◌, true, length};
ghost use Rattle.laws.specs.Counting.{all_different, all_below};
ghost use Rattle.bit_map.specs.BitMap.{has_bits, cleared};
ghost use Rattle.bit_map.specs.Marking.{mark_all, bytes_zero};

use crate::map::{clear, is_marked, mark};

// Marks number n. Returns false, and leaves the map, where n is marked already or is not below the limit.
#[inline(always)]
pub fn mark_new(limit: usize, n: u32, map: &mut [u8]) -> bool
    requires { has_bits limit (length map.old) ≡ true }
    ensures { record { all = result; map = map.new } ≡ mark_all limit map.old (n ∷ []) }
{
    let n = n as usize;
    if limit <= n || is_marked(n, map) {
        return false;
    }
    mark(n, map);
    true
}

// Marks numbers up to the first that is marked already or is not below the limit. Returns whether there is none. It is kept apart from its callers,
// so that its loop has the registers that it needs: inlined in a finish it is slower (docs/PERFORMANCE.md).
#[inline(never)]
fn mark_all(limit: usize, numbers: &[u32], map: &mut [u8]) -> bool
    requires { has_bits limit (length map.old) ≡ true }
    ensures { record { all = result; map = map.new } ≡ mark_all limit map.old numbers.now }
{
    for number in numbers {
        if !mark_new(limit, *number, map) {
            return false;
        }
    }
    true
}

// The same of the numbers of three tables, one after another.
fn mark_tables(limit: usize, a: &[u32], b: &[u32], c: &[u32], map: &mut [u8]) -> bool
    requires { has_bits limit (length map.old) ≡ true }
    ensures { record { all = result; map = map.new } ≡ mark_all limit map.old (a.now ++ (b.now ++ c.now)) }
{
    if !mark_all(limit, a, map) {
        return false;
    }
    if !mark_all(limit, b, map) {
        return false;
    }
    mark_all(limit, c, map)
}

// Makes the byte of number n zero, if n is below the limit.
pub fn zero_byte(limit: usize, n: u32, map: &mut [u8])
    requires { has_bits limit (length map.old) ≡ true }
    ensures { map.new ≡ bytes_zero limit map.old (n ∷ []) }
{
    let n = n as usize;
    if n < limit {
        map[n / 8] = 0;
    }
}

// Makes the bytes of the numbers zero that are below the limit.
fn zero_bytes(limit: usize, numbers: &[u32], map: &mut [u8])
    requires { has_bits limit (length map.old) ≡ true }
    ensures { map.new ≡ bytes_zero limit map.old numbers.now }
{
    for number in numbers {
        zero_byte(limit, *number, map);
    }
}

// Whether the bytes of so many numbers are made zero sooner than all bytes in use: of these some thirty go at a time.
pub fn is_few(numbers: usize, limit: usize) -> bool {
    numbers < limit / 256
}

// Whether the numbers of three tables are all below the limit and all differ. No number is marked afterwards, whatever the map held.
pub fn all_differ(limit: usize, a: &[u32], b: &[u32], c: &[u32], map: &mut [u8]) -> bool
    requires { has_bits limit (length map.old) ≡ true }
    ensures differ { result ≡ all_below limit (a.now ++ (b.now ++ c.now)) && all_different (a.now ++ (b.now ++ c.now)) }
    ensures map { map.new ≡ cleared limit map.old }
{
    clear(limit, map);
    let differ = mark_tables(limit, a, b, c, map);
    if is_few(a.len() + b.len() + c.len(), limit) {
        zero_bytes(limit, a, map);
        zero_bytes(limit, b, map);
        zero_bytes(limit, c, map);
    } else {
        clear(limit, map);
    }
    differ
}
