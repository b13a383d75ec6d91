// Bytes and numbers carried from one slice to another.
//
// These are leaves for sibling crates: each asks that what is copied has room. The place in `b` goes beside the slice, so that the contract
// speaks of all of `b`.
ghost use Rattle.std.specs.Prelude.{◌≡◌, ◌+◌, ◌-◌, ◌*◌, ◌/◌, ◌%◌, ◌≤◌, length, drop};
ghost use Rattle.std.proofs.lemmas.List.Edits.{sets};

use crate::little_endian::{read_numbers, write_numbers};

// Copies `a` to `b`, from place `at` on.
pub fn copy<T: Copy>(a: &[T], b: &mut [T], at: usize)
    requires { at + length a.now ≤ length b.old }
    ensures { b.new ≡ sets b.old at a.now }
{
    b[at..at + a.len()].copy_from_slice(a);
}

// The most steps in a turn; `copy_turn` asks for no more. A turn reads all its words, eight bytes each, before it writes the first, so that the
// compiler can join the moves. With 192 a page of 4,096 bytes takes three turns; docs/PERFORMANCE.md has other turns beside it.
const TURN: usize = 192;

// Does what `copy` does, in steps of eight bytes, and goes singly over what is then left, at most seven. Returns the count of steps, which is
// what the loop goes by.
//
// A `for` over single words takes up to twice as long on a page in the cache.
pub fn copy_steps(a: &[u8], b: &mut [u8], at: usize) -> usize
    requires { at + length a.now ≤ length b.old }
    ensures { (result ≡ length a.now / 8) × (b.new ≡ sets b.old at a.now) }
{
    let mut steps = 0;
    while a.len() - 8 * steps >= 8 {
        let done = 8 * steps;
        let n = ((a.len() - done) / 8).min(TURN);
        steps += copy_turn(&a[done..done + 8 * n], n, b, at + done);
    }
    copy_rest(a, b, at);
    steps
}

// Copies n words, a turn at most, and returns the count of steps. The caller gives n, so that it is not divided out of the length again.
fn copy_turn(a: &[u8], n: usize, b: &mut [u8], at: usize) -> usize
    requires { (n ≤ 192) × (length a.now ≡ 8 * n) × (at + 8 * n ≤ length b.old) }
    ensures { (result ≡ n) × (b.new ≡ sets b.old at a.now) }
{
    let mut room = [0u64; TURN];
    let words = &mut room[..n];
    read_numbers(a, 0, words);
    write_numbers(words, b, at)
}

// Copies the bytes of `a` behind its whole words, one by one. It takes all of `a`: from the remainder the compiler sees that the bytes are fewer
// than eight, and writes them out without a loop.
fn copy_rest(a: &[u8], b: &mut [u8], at: usize)
    requires { at + length a.now ≤ length b.old }
    ensures { b.new ≡ sets b.old (at + (length a.now - length a.now % 8)) (drop (length a.now - length a.now % 8) a.now) }
{
    let rest = a.len() % 8;
    let done = a.len() - rest;
    for i in 0..rest {
        b[at + done + i] = a[done + i];
    }
}
