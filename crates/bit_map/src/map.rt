// The map itself: its room, one bit, and all of them.
//
// These are leaves for sibling crates: each but `has_bits` asks that its bytes lie within the map.
ghost use Rattle.std.specs.Prelude.{◌≡◌, ◌/◌, ◌<◌, true, length};
ghost use Rattle.bit_map.specs.BitMap.{bytes_in_use, has_bits, is_marked, with_marked, cleared};

// How many bytes of a map are in use where there is a bit for each number below the limit.
fn bytes_in_use(limit: usize) -> usize
    ensures { result ≡ bytes_in_use limit }
{
    limit.div_ceil(8)
}

// Whether a map has a bit for each number below the limit.
pub fn has_bits(limit: usize, map: &[u8]) -> bool
    ensures { result ≡ has_bits limit (length map.now) }
{
    bytes_in_use(limit) <= map.len()
}

// Whether number n is marked.
pub fn is_marked(n: usize, map: &[u8]) -> bool
    requires { n / 8 < length map.now }
    ensures { result ≡ is_marked map.now n }
{
    map[n / 8] >> (n % 8) & 1 == 1
}

// Marks number n.
pub fn mark(n: usize, map: &mut [u8])
    requires { n / 8 < length map.old }
    ensures { map.new ≡ with_marked map.old n }
{
    map[n / 8] |= 1 << (n % 8);
}

// Marks no number: the bytes in use are made zero, and the others stay.
pub fn clear(limit: usize, map: &mut [u8])
    requires { has_bits limit (length map.old) ≡ true }
    ensures { map.new ≡ cleared limit map.old }
{
    map[..bytes_in_use(limit)].fill(0);
}
