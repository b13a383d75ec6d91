// Bytes made zero.
//
// A leaf for sibling crates: it asks that the bytes lie within the slice. It takes both places, so that the caller need not show which is less.
ghost use Rattle.std.specs.Prelude.{◌≡◌, ◌-◌, ◌/◌, ◌%◌, ◌≤◌, length, replicate};
ghost use Rattle.std.proofs.lemmas.List.Edits.{sets};

use crate::little_endian::LittleEndian;

// Makes the bytes from place `from` on, and before place `to`, zero: in steps of eight bytes, and then singly, at most seven. Returns the count
// of steps. Where `to` is at or before `from` there is nothing to do, and the count is 0.
pub fn clear_steps(b: &mut [u8], from: usize, to: usize) -> usize
    requires { to ≤ length b.old }
    ensures { (result ≡ (to - from) / 8) × (b.new ≡ sets b.old from (replicate (to - from) 0)) }
{
    if to <= from {
        return 0;
    }
    clear_part(&mut b[from..to])
}

// Makes all bytes zero. Each step raises the count when its bytes are written.
fn clear_part(b: &mut [u8]) -> usize
    ensures { (result ≡ length b.old / 8) × (b.new ≡ replicate (length b.old) 0) }
{
    let mut steps = 0;
    for i in 0..b.len() / 8 {
        0u64.write_at(b, 8 * i);
        steps += 1;
    }
    clear_rest(b);
    steps
}

// Makes the bytes behind the whole words zero, one by one.
fn clear_rest(b: &mut [u8])
    ensures { b.new ≡ sets b.old (length b.old - length b.old % 8) (replicate (length b.old % 8) 0) }
{
    let rest = b.len() % 8;
    let done = b.len() - rest;
    for i in 0..rest {
        b[done + i] = 0;
    }
}
